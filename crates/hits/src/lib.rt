// An access that only touches a line of the cache: its way there is found without a flight, and it is answered where it stands.
#![tactic(auto)]

ghost use Rattle.std.specs.Prelude.{◌≡◌};
ghost use Rattle.words.specs.Words.{keep_of};
ghost use Rattle.lines.specs.Lines.{used_at, marked};
ghost use Rattle.cells.specs.Cells.{word_at, merged_at};
ghost use Rattle.hits.specs.Hits.{clear_way, way_by, way_in, way_of, found_of, kept_of, hit_in, hit_by, look_of};

use lines::LineState;
use pages::Translation;
use state::Place;

// Where an access hits: the place of its line, and the physical address.
#[derive(Clone, Copy)]
pub struct Hit {
    pub place: Place,
    pub address: u32,
}

// A translation that is neither inhibited nor barred, nor one of a write through the cache.
#[tactic(auto, unfolding(crate::specs::Hits::way_of))]
fn clear(t: Translation, supervisor: bool, write: bool) -> Option<Translation>
    ensures { way_in result ≡ clear_way (way_of t supervisor write) }
{
    let permitted = pages::protection(t, supervisor, write).is_ok();
    if !(t.ci | (write & t.wt)) & permitted {
        return Some(t);
    }
    None
}

// The clear translation of an access that needs no search, as a write does that finds M clear.
fn found(
    area: u32,
    ports: &[u32],
    patc: &[u32; 112],
    address: u32,
    supervisor: bool,
    write: bool,
) -> Option<Translation>
    ensures { way_in result ≡ clear_way (found_of area ports.now patc.now address supervisor write) }
{
    if !words::bit(area, 0) {
        return clear(pages::unmapped(area, address), supervisor, write);
    }
    if let Some(port) = pages::port(ports, address, supervisor) {
        return clear(pages::block(port, address), supervisor, write);
    }
    let slot = patc::entry(patc, address, supervisor)?;
    let t = pages::paged(patc::frame(patc, slot), address);
    if write & !t.m {
        return None;
    }
    clear(t, supervisor, write)
}

// Does a write to the line at a place touch the line only? Not to a shared one of a global page.
#[tactic(auto, unfolding(crate::specs::Hits::kept_of))]
fn kept(lines: &[u32; 1280], g: bool, place: Place) -> bool
    ensures { result ≡ kept_of lines.now g place }
{
    let state = lines::state(lines::tag_word(lines, place));
    !(g & (state == LineState::Shared))
}

// The line of a clear translation.
#[tactic(auto, unfolding(crate::specs::Hits::hit_by, crate::specs::Hits::kept_of))]
fn line_of(lines: &[u32; 1280], t: Translation, write: bool) -> Result<Hit, u32>
    ensures { hit_in result ≡ hit_by lines.now (way_by t) write }
{
    let address = t.address;
    let Some(place) = lines::hit(lines, address) else {
        return Err(if write { 0 } else { address });
    };
    if write & !kept(lines, t.g, place) {
        return Err(0);
    }
    Ok(Hit { place, address })
}

// The line that an access touches alone; else the address at which a read finds no line, and 0 where the access does more.
pub fn look(
    lines: &[u32; 1280],
    area: u32,
    ports: &[u32],
    patc: &[u32; 112],
    address: u32,
    supervisor: bool,
    write: bool,
) -> Result<Hit, u32>
    ensures { hit_in result ≡ look_of lines.now area ports.now patc.now address supervisor write }
{
    match found(area, ports, patc, address, supervisor, write) {
        Some(t) => line_of(lines, t, write),
        None => Err(0),
    }
}

// The word that is hit, and the line is used.
pub fn read(lines: &mut [u32; 1280], cells: &[u32; 4096], hit: Hit, enables: u32) -> u32
    ensures { (result ≡ keep_of enables (word_at cells.now hit.place hit.address)) × (lines.new ≡ used_at lines.old hit.place) }
{
    let word = cells::word(cells, hit.place, hit.address);
    lines::note_use(lines, hit.place);
    words::keep(enables, word)
}

// The word is written to the line that is hit, which is then modified and used.
pub fn write(lines: &mut [u32; 1280], cells: &mut [u32; 4096], hit: Hit, enables: u32, word: u32)
    ensures { (lines.new ≡ used_at (marked lines.old hit.place 1) hit.place) × (cells.new ≡ merged_at cells.old hit.place hit.address enables word) }
{
    lines::set_state(lines, hit.place, LineState::Modified);
    lines::note_use(lines, hit.place);
    cells::merge(cells, hit.place, hit.address, enables, word);
}
