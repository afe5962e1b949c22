// The driver of one unit on its memory: it moves the words of each transaction that a flight wants.
#![tactic(auto)]

ghost use Rattle.std.specs.Prelude.{◌≡◌, ◌<◌, length};
ghost use Rattle.memory.specs.Memory.{read_of, write_word_of};
ghost use Rattle.flight.specs.Search.{flown, segment_of, page_of, update_of};
ghost use Rattle.flight.specs.Ops.{system, turn_of, left_of};
ghost use Rattle.driver.specs.Alone.{memory, alone};

use course::{Course, Flight, Stage};

fn segment(c: Course, ram: &[u32], rom: &[u32]) -> Flight
    ensures { result ≡ segment_of c (read_of ram.now rom.now c.want.address) }
{
    let read = memory::read_word(ram, rom, c.want.address);
    flight::search::take_segment(c, read)
}

fn page(
    c: Course,
    patc: &mut [u32; 112],
    lines: &mut [u32; 1280],
    cells: &mut [u32; 4096],
    ram: &[u32],
    rom: &[u32],
) -> Flight
    ensures { flown result patc.new lines.new cells.new ≡ page_of c patc.old lines.old cells.old (read_of ram.now rom.now c.want.address) }
{
    let read = memory::read_word(ram, rom, c.want.address);
    flight::search::take_page(c, patc, lines, cells, read)
}

fn update(
    c: Course,
    patc: &mut [u32; 112],
    lines: &mut [u32; 1280],
    cells: &mut [u32; 4096],
    ram: &mut [u32],
) -> Flight
    ensures flight { flown result patc.new lines.new cells.new ≡ update_of c patc.old lines.old cells.old (write_word_of ram.old c.want.address 15 c.descriptor).moved }
    ensures ram { ram.new ≡ (write_word_of ram.old c.want.address 15 c.descriptor).ram }
{
    let moved = memory::write_word(ram, c.want.address, 15, c.descriptor);
    flight::search::take_update(c, patc, lines, cells, moved)
}

// One turn: the transaction that the flight wants, by its stage (see `Stage`).
#[tactic(auto, unfolding(flight::specs::Ops::turn_of, flight::specs::Ops::turn_at), using(crate::specs::Turns::cache_turn))]
pub fn turn(
    f: Flight,
    patc: &mut [u32; 112],
    lines: &mut [u32; 1280],
    cells: &mut [u32; 4096],
    ram: &mut [u32],
    rom: &[u32],
) -> Flight
    ensures { system result patc.new lines.new cells.new (memory ram.new rom.now) ≡ turn_of alone (system f patc.old lines.old cells.old (memory ram.old rom.now)) }
{
    let c = f.course;
    match f.stage {
        Stage::Segment => segment(c, ram, rom),
        Stage::Page => page(c, patc, lines, cells, ram, rom),
        Stage::Update => update(c, patc, lines, cells, ram),
        _ => transfers::transfer(f, lines, cells, ram, rom),
    }
}

// Turns until the flight has its answer: at most six.
pub fn run(
    f: Flight,
    patc: &mut [u32; 112],
    lines: &mut [u32; 1280],
    cells: &mut [u32; 4096],
    ram: &mut [u32],
    rom: &[u32],
) -> Flight
    ensures { system result patc.new lines.new cells.new (memory ram.new rom.now) ≡ left_of alone 6 (system f patc.old lines.old cells.old (memory ram.old rom.now)) }
{
    let mut g = f;
    for _turn in 0..6usize {
        if let Stage::Done = g.stage {
            return g;
        }
        g = turn(g, patc, lines, cells, ram, rom);
    }
    g
}
