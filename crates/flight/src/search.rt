// A table search, one descriptor at a time; and the entry that it loads or renews.
ghost use Rattle.std.specs.Prelude.{◌≡◌, Ok};
ghost use Rattle.memory.specs.Memory.{moved_in, read_in};
ghost use Rattle.lookup.specs.Lookup.{finished};
ghost use Rattle.flight.specs.Search.{flown, start_of, segment_of, updating_of, loaded_of, walk_of, page_of, update_of};

use course::{Course, Flight, Stage};
use lookup::Walked;
use memory::{BusError, Done};
use pages::Translation;
use patc::Slot;
use state::{Fault, Outcome};

// Wants the segment descriptor; a hit that found M clear names its entry.
#[tactic(auto, unfolding(crate::specs::Search::start_of, course::specs::Course::with_entry, course::specs::Course::searched_of))]
pub fn start(c: Course, entry: usize) -> Flight
    ensures { result ≡ start_of c entry }
{
    let at = pages::tables::segment_at(c.area, c.access.address);
    let d = Course { entry, ..c };
    let t = course::searched(&d, false, at);
    course::wanting(d, t, Stage::Segment)
}

// The segment descriptor, read: V clear is fault 4.
#[tactic(auto, unfolding(crate::specs::Search::segment_of, course::specs::Course::listed_of, course::specs::Course::with_descriptor, course::specs::Course::searched_of))]
fn segment(c: Course, read: Done<u32>) -> Flight
    ensures { result ≡ segment_of c (read_in (Ok read)) }
{
    let here = c.want.address;
    let descriptor = read.moved;
    let listed = course::listed(c, read.words);
    if !words::bit(descriptor, 0) {
        return course::failed(listed, 4, here);
    }
    let d = Course {
        descriptor,
        ..listed
    };
    let at = pages::tables::page_at(descriptor, d.access.address);
    let t = course::searched(&d, false, at);
    course::wanting(d, t, Stage::Page)
}

// After the segment descriptor: the page descriptor.
#[tactic(auto, unfolding(crate::specs::Search::segment_of, course::specs::Course::listed_of))]
pub fn take_segment(c: Course, read: Result<Done<u32>, BusError>) -> Flight
    ensures { result ≡ segment_of c (read_in read) }
{
    match read {
        Ok(done) => segment(c, done),
        Err(e) => course::bus_error(c, e),
    }
}

// Wants the page descriptor written back where it was read.
#[tactic(auto, unfolding(crate::specs::Search::updating_of, course::specs::Course::with_descriptor, course::specs::Course::with_translation, course::specs::Course::searched_of))]
fn updating(c: Course, t: Translation, descriptor: u32) -> Flight
    ensures { result ≡ updating_of c t descriptor }
{
    let d = Course { t, descriptor, ..c };
    let w = course::searched(&d, true, d.want.address);
    course::wanting(d, w, Stage::Update)
}

// Loads an entry for the translation that stands, or renews the one that was hit, and goes to the cache.
#[tactic(auto, unfolding(crate::specs::Search::loaded_of, course::specs::Course::with_pointer))]
fn loaded(
    c: Course,
    patc: &mut [u32; 112],
    lines: &mut [u32; 1280],
    cells: &mut [u32; 4096],
) -> Flight
    ensures { flown result patc.new lines.new cells.new ≡ loaded_of c patc.old lines.old cells.old }
{
    let page = pages::tables::page_word(c.access.address, c.access.supervisor);
    let frame = pages::tables::frame_word(c.t);
    match Slot::new(c.entry) {
        Some(slot) => {
            patc::put(patc, slot, page, frame);
            cache::enter(c, lines, cells)
        }
        None => {
            let pointer = patc::load(patc, c.pointer, page, frame);
            cache::enter(Course { pointer, ..c }, lines, cells)
        }
    }
}

// What a search does with both descriptors.
#[tactic(auto, unfolding(crate::specs::Search::walk_of, course::specs::Course::with_translation))]
fn walk(
    c: Course,
    walked: Result<Walked, Fault>,
    patc: &mut [u32; 112],
    lines: &mut [u32; 1280],
    cells: &mut [u32; 4096],
) -> Flight
    ensures { flown result patc.new lines.new cells.new ≡ walk_of c (finished walked) patc.old lines.old cells.old }
{
    match walked {
        Ok(Walked::Update(t, descriptor)) => updating(c, t, descriptor),
        Ok(Walked::Complete(t)) => loaded(Course { t, ..c }, patc, lines, cells),
        Err(fault) => course::ended(c, Outcome::Failed(fault)),
    }
}

// The page descriptor, read: V clear is fault 5.
#[tactic(auto, unfolding(crate::specs::Search::page_of, course::specs::Course::listed_of))]
fn page(
    c: Course,
    patc: &mut [u32; 112],
    lines: &mut [u32; 1280],
    cells: &mut [u32; 4096],
    read: Done<u32>,
) -> Flight
    ensures { flown result patc.new lines.new cells.new ≡ page_of c patc.old lines.old cells.old (read_in (Ok read)) }
{
    let here = c.want.address;
    let page = read.moved;
    let d = course::listed(c, read.words);
    if !words::bit(page, 0) {
        return course::failed(d, 5, here);
    }
    let a = d.access;
    let walked = lookup::finish(d.area, d.descriptor, page, a.address, a.supervisor, a.write);
    walk(d, walked, patc, lines, cells)
}

// After the page descriptor: its update, or the entry.
#[tactic(auto, unfolding(crate::specs::Search::page_of, course::specs::Course::listed_of))]
pub fn take_page(
    c: Course,
    patc: &mut [u32; 112],
    lines: &mut [u32; 1280],
    cells: &mut [u32; 4096],
    read: Result<Done<u32>, BusError>,
) -> Flight
    ensures { flown result patc.new lines.new cells.new ≡ page_of c patc.old lines.old cells.old (read_in read) }
{
    match read {
        Ok(done) => page(c, patc, lines, cells, done),
        Err(e) => course::bus_error(c, e),
    }
}

// After the page descriptor's update: only then is an entry loaded.
#[tactic(auto, unfolding(crate::specs::Search::update_of, course::specs::Course::listed_of))]
pub fn take_update(
    c: Course,
    patc: &mut [u32; 112],
    lines: &mut [u32; 1280],
    cells: &mut [u32; 4096],
    moved: Result<Done<()>, BusError>,
) -> Flight
    ensures { flown result patc.new lines.new cells.new ≡ update_of c patc.old lines.old cells.old (moved_in moved) }
{
    match moved {
        Ok(done) => loaded(course::listed(c, done.words), patc, lines, cells),
        Err(e) => course::bus_error(c, e),
    }
}
