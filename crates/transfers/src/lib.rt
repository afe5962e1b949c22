// What the cache wants moved, on RAM and ROM: a line copied back or filled, a word written through, a single word.
#![tactic(auto)]

ghost use Rattle.std.specs.Prelude.{◌≡◌};
ghost use Rattle.memory.specs.Memory.{moved_in, wrote, part_of, shown_of, write_word_of, write_line_of};
ghost use Rattle.cells.specs.Cells.{line_words};
ghost use Rattle.course.specs.Next.{cached};
ghost use Rattle.after.specs.After.{fill_of, store_of};
ghost use Rattle.transfers.specs.Transfers.{flown_to, single_by, carried, transfer_of};

use course::{Course, Flight, Stage};
use memory::{BusError, Done};

// The line at the course's place copied back.
fn copied_back(c: &Course, cells: &[u32; 4096], ram: &mut [u32]) -> Result<Done<()>, BusError>
    ensures { wrote (moved_in result) ram.new ≡ write_line_of ram.old c.now.want.address (line_words cells.now c.now.place) }
{
    memory::write_line(ram, c.want.address, cells::line_words(cells, c.place))
}

fn fill<'a>(
    c: Course,
    lines: &mut [u32; 1280],
    cells: &mut [u32; 4096],
    ram: &'a [u32],
    rom: &'a [u32],
) -> Flight
    ensures { cached result lines.new cells.new ≡ fill_of c lines.old cells.old (part_of ram.now rom.now c.want.address) (shown_of (part_of ram.now rom.now c.want.address) c.want.address) }
{
    let shown = memory::line(ram, rom, c.want.address);
    after::take_fill(c, lines, cells, shown)
}

fn store(c: Course, lines: &mut [u32; 1280], cells: &mut [u32; 4096], ram: &mut [u32]) -> Flight
    ensures flight { cached result lines.new cells.new ≡ store_of c lines.old cells.old (write_word_of ram.old c.want.address c.access.enables c.access.word).moved }
    ensures ram { ram.new ≡ (write_word_of ram.old c.want.address c.access.enables c.access.word).ram }
{
    let a = c.access;
    let moved = memory::write_word(ram, c.want.address, a.enables, a.word);
    after::take_store(c, lines, cells, moved)
}

#[tactic(auto, unfolding(crate::specs::Transfers::single_by, after::specs::After::word_of))]
fn single(c: Course, ram: &mut [u32], rom: &[u32]) -> Flight
    ensures { flown_to result ram.new ≡ single_by c ram.old rom.now }
{
    let a = c.access;
    let read = if a.write {
        memory::write_word(ram, c.want.address, a.enables, a.word).map(|done| Done {
            words: done.words,
            moved: 0,
        })
    } else {
        memory::read_word(ram, rom, c.want.address)
    };
    after::take_single(c, read)
}

// The transaction that the cache wants, by its stage (see `Stage`); one of a search is left alone.
#[tactic(auto, unfolding(crate::specs::Transfers::transfer_at))]
pub fn transfer(
    f: Flight,
    lines: &mut [u32; 1280],
    cells: &mut [u32; 4096],
    ram: &mut [u32],
    rom: &[u32],
) -> Flight
    ensures { carried result lines.new cells.new ram.new ≡ transfer_of f lines.old cells.old ram.old rom.now }
{
    let c = f.course;
    match f.stage {
        Stage::Drop => after::take_drop(c, lines, copied_back(&c, cells, ram)),
        Stage::Back => after::take_back(c, copied_back(&c, cells, ram)),
        Stage::Fill => fill(c, lines, cells, ram, rom),
        Stage::Store => store(c, lines, cells, ram),
        Stage::Single => single(c, ram, rom),
        _ => f,
    }
}
