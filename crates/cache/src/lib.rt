// The cache's part of an access, once its translation stands.
#![tactic(auto)]

ghost use Rattle.std.specs.Prelude.{◌≡◌, unwrap_or};
ghost use Rattle.course.specs.Next.{lined, cached};
ghost use Rattle.cache.specs.Cache.{inhibited_of, uncached_of, write_line_of, write_hit_of, miss_of, enter_of};

use course::{Course, Flight};
use lines::LineState;
use state::{Outcome, Place};

// CI, or a locked access.
fn inhibited(c: &Course) -> bool
    ensures { result ≡ inhibited_of c.now }
{
    c.t.ci | c.access.lock
}

// Inhibited: on a hit, a modified line is copied back and the line invalidated; then the single word is read or written.
#[tactic(auto, unfolding(crate::specs::Cache::uncached_of, course::specs::Course::with_place))]
fn uncached(c: Course, hit: Option<Place>, lines: &mut [u32; 1280]) -> Flight
    ensures { lined result lines.new ≡ uncached_of c (unwrap_or hit 1024) lines.old }
{
    let Some(p) = hit else {
        return course::next::single(c);
    };
    let word = lines::tag_word(lines, p);
    if lines::is_modified(word) {
        return course::next::dropping(Course { place: p, ..c }, word);
    }
    lines::set_state(lines, p, LineState::Invalid);
    course::next::single(c)
}

// The line alone takes the word: state 1.
#[tactic(auto, unfolding(crate::specs::Cache::write_line_of))]
fn write_line(c: Course, p: Place, lines: &mut [u32; 1280], cells: &mut [u32; 4096]) -> Flight
    ensures { cached result lines.new cells.new ≡ write_line_of c p lines.old cells.old }
{
    cells::merge(cells, p, c.t.address, c.access.enables, c.access.word);
    lines::set_state(lines, p, LineState::Modified);
    lines::note_use(lines, p);
    course::ended(c, Outcome::Written)
}

// Write hit: WT, and a global line in state 2, write memory first.
#[tactic(auto, unfolding(crate::specs::Cache::write_hit_of, course::specs::Course::with_place))]
fn write_hit(c: Course, p: Place, lines: &mut [u32; 1280], cells: &mut [u32; 4096]) -> Flight
    ensures { cached result lines.new cells.new ≡ write_hit_of c p lines.old cells.old }
{
    let state = lines::state(lines::tag_word(lines, p));
    if c.t.wt | (c.t.g & (state == LineState::Shared)) {
        return course::next::storing(Course { place: p, ..c });
    }
    write_line(c, p, lines, cells)
}

// A miss takes a victim; a modified one is copied back first.
#[tactic(auto, unfolding(crate::specs::Cache::miss_of, course::specs::Course::with_place))]
fn miss(c: Course, lines: &[u32; 1280]) -> Flight
    ensures { result ≡ miss_of c lines.now }
{
    let p = lines::victim(lines, c.t.address);
    let word = lines::tag_word(lines, p);
    let d = Course { place: p, ..c };
    if lines::is_modified(word) {
        return course::next::backing(d, word);
    }
    course::next::filling(d)
}

// The cache's part of an access whose translation stands.
#[tactic(auto, unfolding(crate::specs::Cache::enter_of))]
pub fn enter(c: Course, lines: &mut [u32; 1280], cells: &mut [u32; 4096]) -> Flight
    ensures { cached result lines.new cells.new ≡ enter_of c lines.old cells.old }
{
    let hit = lines::hit(lines, c.t.address);
    if inhibited(&c) {
        return uncached(c, hit, lines);
    }
    match hit {
        Some(p) if c.access.write => write_hit(c, p, lines, cells),
        Some(p) => course::next::read_hit(c, p, lines, cells),
        None => miss(c, lines),
    }
}
