// What a flight wants of memory for the cache, and a read that a line ends.
ghost use Rattle.std.specs.Prelude.{◌≡◌};
ghost use Rattle.course.specs.Next.{lined, single_of, storing_of, filling_of, copying_of, backing_of, dropping_of, read_hit_of};

use crate::{Course, Flight, Stage};
use state::{Outcome, Place};

// Wants the single word read or written in memory.
#[tactic(auto, unfolding(crate::specs::Next::single_of, crate::specs::Course::carried_of))]
pub fn single(c: Course) -> Flight
    ensures { result ≡ single_of c }
{
    let a = c.access;
    let t = crate::carried(
        &c.access,
        &c.t,
        a.write,
        c.t.address,
        1,
        c.t.g,
        a.write | a.lock,
        a.lock,
    );
    crate::wanting(c, t, Stage::Single)
}

// Wants the word written to memory, and then to the line.
#[tactic(auto, unfolding(crate::specs::Next::storing_of, crate::specs::Course::carried_of))]
pub fn storing(c: Course) -> Flight
    ensures { result ≡ storing_of c }
{
    let t = crate::carried(&c.access, &c.t, true, c.t.address, 1, c.t.g, true, false);
    crate::wanting(c, t, Stage::Store)
}

// Wants the line filled; with intent to modify for a write.
#[tactic(auto, unfolding(crate::specs::Next::filling_of, crate::specs::Course::carried_of))]
pub fn filling(c: Course) -> Flight
    ensures { result ≡ filling_of c }
{
    let first = c.t.address / 16 * 16;
    let t = crate::carried(
        &c.access,
        &c.t,
        false,
        first,
        4,
        c.t.g,
        c.access.write,
        false,
    );
    crate::wanting(c, t, Stage::Fill)
}

// Wants the line at the course's place copied back.
#[tactic(auto, unfolding(crate::specs::Course::carried_of))]
fn copying(c: Course, word: u32, g: bool, stage: Stage) -> Flight
    ensures { result ≡ copying_of c word g stage }
{
    let at = lines::line_address(c.place, word);
    let t = crate::carried(&c.access, &c.t, true, at, 4, g, true, false);
    crate::wanting(c, t, stage)
}

// Wants a modified victim copied back; G is 0 for it.
#[tactic(auto, unfolding(crate::specs::Next::backing_of))]
pub fn backing(c: Course, word: u32) -> Flight
    ensures { result ≡ backing_of c word }
{
    copying(c, word, false, Stage::Back)
}

// Wants a modified line that an inhibited access hit copied back.
#[tactic(auto, unfolding(crate::specs::Next::dropping_of))]
pub fn dropping(c: Course, word: u32) -> Flight
    ensures { result ≡ dropping_of c word }
{
    let g = c.t.g;
    copying(c, word, g, Stage::Drop)
}

// The word that a line holds, of which only the enabled bytes are kept; the line is used.
#[tactic(auto, unfolding(crate::specs::Next::read_hit_of))]
pub fn read_hit(c: Course, p: Place, lines: &mut [u32; 1280], cells: &[u32; 4096]) -> Flight
    ensures { lined result lines.new ≡ read_hit_of c p lines.old cells.now }
{
    let word = cells::word(cells, p, c.t.address);
    lines::note_use(lines, p);
    crate::ended(c, Outcome::Word(words::keep(c.access.enables, word)))
}
