// Where an address is looked up, in order: unmapped, BATC, PATC; and what an access or a finished search may do with what was found.
#![tactic(auto)]

ghost use Rattle.std.specs.Prelude.{◌≡◌};
ghost use Rattle.lookup.specs.Lookup.{placed, judged, finished, permit_of, place_of, judge_of, walked_of};

use pages::Translation;
use state::Fault;

// Where a translation was found; a page's has the number of its entry. It is a number and no `Slot`, since `judge` promises an answer for any.
#[derive(Clone, Copy)]
pub enum Place {
    Unmapped(Translation),
    Block(Translation),
    Page(usize, Translation),
}

// What an access does next: go on with its translation, or search the tables and renew an entry (56: load one; `judge` promises an answer for any number).
#[derive(Clone, Copy)]
pub enum Lookup {
    Found(Translation),
    Search(usize),
}

// What a search does once both descriptors are read.
#[derive(Clone, Copy)]
pub enum Walked {
    Update(Translation, u32),
    Complete(Translation),
}

// Looks an address up: TE clear, else the ports, else the entries.
pub fn find(
    area: u32,
    ports: &[u32],
    patc: &[u32; 112],
    address: u32,
    supervisor: bool,
) -> Option<Place>
    ensures { placed result ≡ place_of area ports.now patc.now address supervisor }
{
    if !words::bit(area, 0) {
        return Some(Place::Unmapped(pages::unmapped(area, address)));
    }
    if let Some(port) = pages::port(ports, address, supervisor) {
        return Some(Place::Block(pages::block(port, address)));
    }
    let slot = patc::entry(patc, address, supervisor)?;
    let t = pages::paged(patc::frame(patc, slot), address);
    Some(Place::Page(usize::from(slot), t))
}

// Using a translation that is protected is a fault at the translated address.
fn permit(t: Translation, supervisor: bool, write: bool) -> Result<(), Fault>
    ensures { result ≡ permit_of t supervisor write }
{
    pages::protection(t, supervisor, write).map_err(|violation| Fault {
        code: u32::from(violation),
        address: t.address,
    })
}

// What an access does with the place that was found: a write that hits an entry with M clear searches again, and renews that entry.
pub fn judge(place: Option<Place>, supervisor: bool, write: bool) -> Result<Lookup, Fault>
    ensures { judged result ≡ judge_of (placed place) supervisor write }
{
    match place {
        Some(Place::Unmapped(t)) => Ok(Lookup::Found(t)),
        Some(Place::Block(t)) => {
            permit(t, supervisor, write)?;
            Ok(Lookup::Found(t))
        }
        Some(Place::Page(n, t)) => {
            permit(t, supervisor, write)?;
            if write & !t.m {
                return Ok(Lookup::Search(n));
            }
            Ok(Lookup::Found(t))
        }
        None => Ok(Lookup::Search(56)),
    }
}

// What a search does with both descriptors: the protection tests, then U and M, and only then an entry.
pub fn finish(
    area: u32,
    segment: u32,
    page: u32,
    address: u32,
    supervisor: bool,
    write: bool,
) -> Result<Walked, Fault>
    ensures { finished result ≡ walked_of area segment page address supervisor write }
{
    let both = pages::tables::combined(area, segment, page, address);
    permit(both, supervisor, write)?;
    if pages::tables::stale(both, write) {
        let next = pages::tables::renewed(both, write);
        return Ok(Walked::Update(next, pages::tables::described(page, write)));
    }
    Ok(Walked::Complete(both))
}
