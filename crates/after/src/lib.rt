// What follows each transaction of the cache.
#![tactic(auto)]

ghost use Rattle.std.specs.Prelude.{◌≡◌};
ghost use Rattle.memory.specs.Memory.{moved_of, moved_in, read_in, part_in};
ghost use Rattle.lines.specs.Lines.{marked};
ghost use Rattle.course.specs.Course.{listed_of, failed_of};
ghost use Rattle.course.specs.Next.{lined, cached};
ghost use Rattle.after.specs.After.{back_of, drop_of, fill_of, settled_of, store_of, word_of};

use course::{Course, Flight};
use lines::LineState;
use memory::{BusError, Done};
use state::Outcome;

// After a victim's copyback: the fill. A victim that could not be copied back stays modified.
#[tactic(auto, unfolding(crate::specs::After::back_of, course::specs::Course::listed_of))]
pub fn take_back(c: Course, moved: Result<Done<()>, BusError>) -> Flight
    ensures { result ≡ back_of c (moved_in moved) }
{
    match moved {
        Ok(done) => course::next::filling(course::listed(c, done.words)),
        Err(e) => course::bus_error(c, e),
    }
}

// After an inhibited hit's copyback: the line is invalid, and the single word follows. A failed copyback leaves the line.
#[tactic(auto, unfolding(crate::specs::After::drop_of, course::specs::Course::listed_of))]
pub fn take_drop(c: Course, lines: &mut [u32; 1280], moved: Result<Done<()>, BusError>) -> Flight
    ensures { lined result lines.new ≡ drop_of c lines.old (moved_in moved) }
{
    match moved {
        Ok(done) => {
            lines::set_state(lines, c.place, LineState::Invalid);
            course::next::single(course::listed(c, done.words))
        }
        Err(e) => course::bus_error(c, e),
    }
}

// A failed fill leaves the line invalid, old tag and data kept.
fn unfilled(c: Course, lines: &mut [u32; 1280], e: BusError) -> Flight
    ensures { (result ≡ failed_of (listed_of c (moved_of e.words)) 3 e.address) × (lines.new ≡ marked lines.old c.place 3) }
{
    let p = c.place;
    lines::set_state(lines, p, LineState::Invalid);
    course::bus_error(c, e)
}

// A filled line gives the word, or takes it once memory has it.
#[tactic(auto, unfolding(crate::specs::After::fill_of, course::specs::Course::listed_of))]
fn filled(
    c: Course,
    lines: &mut [u32; 1280],
    cells: &mut [u32; 4096],
    part: &[u32; 4],
    words: u8,
) -> Flight
    ensures { cached result lines.new cells.new ≡ fill_of c lines.old cells.old part.now (moved_of words) }
{
    let p = c.place;
    lines::fill(lines, cells, p, c.t.address, part);
    let d = course::listed(c, words);
    if d.access.write {
        return course::next::storing(d);
    }
    course::next::read_hit(d, p, lines, cells)
}

// After a fill: the word, or the word's write.
#[tactic(auto, unfolding(crate::specs::After::fill_of, course::specs::Course::listed_of))]
pub fn take_fill(
    c: Course,
    lines: &mut [u32; 1280],
    cells: &mut [u32; 4096],
    shown: Result<Done<&[u32; 4]>, BusError>,
) -> Flight
    ensures { cached result lines.new cells.new ≡ fill_of c lines.old cells.old (part_in shown.entry) (moved_in shown.entry) }
{
    match shown {
        Ok(done) => filled(c, lines, cells, done.moved, done.words),
        Err(e) => unfilled(c, lines, e),
    }
}

// The line once memory has its word: it is used, and exclusive; under WT its state stays.
#[tactic(auto, unfolding(crate::specs::After::settled_of))]
fn settle(c: &Course, lines: &mut [u32; 1280])
    ensures { lines.new ≡ settled_of c.now lines.old }
{
    lines::note_use(lines, c.place);
    if !c.t.wt {
        lines::set_state(lines, c.place, LineState::Exclusive);
    }
}

// After the word's write to memory: the line takes it too. A failed memory write changes no line.
#[tactic(auto, unfolding(crate::specs::After::store_of, course::specs::Course::listed_of))]
pub fn take_store(
    c: Course,
    lines: &mut [u32; 1280],
    cells: &mut [u32; 4096],
    moved: Result<Done<()>, BusError>,
) -> Flight
    ensures { cached result lines.new cells.new ≡ store_of c lines.old cells.old (moved_in moved) }
{
    match moved {
        Ok(done) => {
            cells::merge(cells, c.place, c.t.address, c.access.enables, c.access.word);
            settle(&c, lines);
            course::ended(course::listed(c, done.words), Outcome::Written)
        }
        Err(e) => course::bus_error(c, e),
    }
}

// After the single word of an inhibited access; a write has read no word.
#[tactic(auto, unfolding(crate::specs::After::word_of, course::specs::Course::listed_of))]
pub fn take_single(c: Course, read: Result<Done<u32>, BusError>) -> Flight
    ensures { result ≡ word_of c (read_in read).moved (read_in read).word }
{
    let a = c.access;
    match read {
        Ok(done) if a.write => course::ended(course::listed(c, done.words), Outcome::Written),
        Ok(done) => {
            let word = words::keep(a.enables, done.moved);
            course::ended(course::listed(c, done.words), Outcome::Word(word))
        }
        Err(e) => course::bus_error(c, e),
    }
}
