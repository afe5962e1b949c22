// The page translations: 56 entries, looked at and changed where they stand.
#![tactic(auto, unfolding(crate::specs::Patc::put_of, crate::specs::Patc::cleared_word))]

ghost use Rattle.std.specs.Prelude.{◌≡◌, ◌<◌, ◌≤◌};
ghost use Rattle.state.specs.Own.{own_pointer};
ghost use Rattle.patc.specs.Patc.{some_slot, frame_word, entry_of, valid_of, map_of, free_of, stepped_of, loaded, load_of, put_of, named, cleared_word, cleared_of};

use std::marker::Model;

// Which translations a command clears: those of a page, of a segment, or all. It is no `sweep::Range`: no command clears those of a line.
#[derive(Clone, Copy)]
pub enum Range {
    Page,
    Segment,
    All,
}

// Where an entry stands: its number, below 56.
#[derive(Clone, Copy)]
pub struct Slot {
    number: usize,
}

impl Model for Slot {
    ghost use Rattle.std.specs.Prelude.{ℕ, ◌<◌};

    ghost Value = { ℕ };

    ghost view = { λ s. s.number };

    ghost invariant = { λ s. s.number < 56 };

    ghost inverse = { λ n. record { number = n } };
}

impl Slot {
    // The slot of a number, if there is one.
    pub fn new(number: usize) -> Option<Slot>
        ensures { result ≡ some_slot number }
    {
        if number < 56 {
            return Some(Slot { number });
        }
        None
    }
}

impl From<Slot> for usize {
    fn from(taken: Slot) -> Self
        ensures { (result ≡ taken) × (result < 56) }
    {
        taken.number
    }
}

// The frame word of an entry.
pub fn frame(patc: &[u32; 112], slot: Slot) -> u32
    ensures { result ≡ frame_word patc.now slot }
{
    patc[slot.number * 2 + 1]
}

// The lowest entry that an address hits, valid, of its space and its page.
pub fn entry(patc: &[u32; 112], address: u32, supervisor: bool) -> Option<Slot>
    ensures { result ≡ some_slot (entry_of patc.now address supervisor) }
{
    let key = pages::tables::page_word(address, supervisor);
    for number in 0..56 {
        if state::own::tag(patc[number * 2]) == key {
            return Some(Slot { number });
        }
    }
    None
}

// The 56-bit map of valid entries, entry 0 lowest.
fn valid_map(patc: &[u32; 112]) -> u64
    ensures { (result ≡ map_of patc.now 0 56) × (result < 72057594037927936) }
{
    let mut map: u64 = 0;
    for number in (0..56).rev() {
        map = map * 2 + valid(patc[number * 2]);
    }
    map
}

fn valid(page: u32) -> u64
    ensures { (result ≡ valid_of page) × (result < 2) }
{
    words::bits(page, 0, 0) as u64
}

// The first free entry: the trailing zeros of the complemented map, whose ones from bit 56 on bound it by 56.
pub fn free(patc: &[u32; 112]) -> Option<Slot>
    ensures { result ≡ some_slot (free_of patc.now) }
{
    Slot::new(u64::trailing_zeros(!valid_map(patc)) as usize)
}

// Stores both words of an entry.
pub fn put(patc: &mut [u32; 112], slot: Slot, page: u32, frame: u32)
    ensures { patc.new ≡ put_of patc.old slot page frame }
{
    patc[slot.number * 2] = page;
    patc[slot.number * 2 + 1] = frame;
}

// The slot that a pointer names.
fn pointed(pointer: u32) -> Slot
    ensures { result ≡ own_pointer pointer }
{
    Slot {
        number: state::own::pointer(pointer) as usize,
    }
}

// Loads an entry: the lowest invalid one, or else the one at the pointer, which then steps; answers the pointer.
pub fn load(patc: &mut [u32; 112], pointer: u32, page: u32, frame: u32) -> u32
    ensures { loaded result patc.new ≡ load_of patc.old pointer page frame }
{
    match free(patc) {
        Some(slot) => {
            put(patc, slot, page, frame);
            pointer
        }
        None => {
            let at = pointed(pointer);
            put(patc, at, page, frame);
            stepped(at)
        }
    }
}

// The pointer's next place, 55 to 0.
fn stepped(slot: Slot) -> u32
    ensures { result ≡ stepped_of slot }
{
    let at = slot.number as u32;
    if at == 55 { 0 } else { at + 1 }
}

fn named(range: Range, w: u32, address: u32) -> bool
    ensures { result ≡ named range w address }
{
    match range {
        Range::Page => words::bits(w, 31, 12) == words::bits(address, 31, 12),
        Range::Segment => words::bits(w, 31, 22) == words::bits(address, 31, 22),
        Range::All => true,
    }
}

fn cleared(range: Range, supervisor: bool, address: u32, w: u32) -> u32
    ensures { result ≡ cleared_word range supervisor address w }
{
    if words::bit(w, 0) & (words::bit(w, 1) == supervisor) & named(range, w, address) {
        return words::bits(w, 31, 12) * 4096 + words::flag(supervisor, 2);
    }
    w
}

// Clears V in the entries of one space that a command names by a logical address.
pub fn clear(patc: &mut [u32; 112], range: Range, supervisor: bool, address: u32)
    ensures { patc.new ≡ cleared_of range supervisor address patc.old }
{
    for number in 0..56 {
        patc[number * 2] = cleared(range, supervisor, address, patc[number * 2]);
    }
}
