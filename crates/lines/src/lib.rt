// The cache's directory: 256 sets of 4 lines. A place is 4 x set + number, 0 to 1023.
#![tactic(auto)]

ghost use Rattle.std.specs.Prelude.{ℕ, ◌≡◌, ◌*◌, ◌<◌, ◌≤◌, length, unwrap_or};
ghost use Rattle.lines.specs.Lines.{vv_of, set_of, tag_of, tag_at, code_at, tag_word, tag_words, state_of, valid, modified, matches, line_address, lowest_of, hit_of, victim_of, with_state, marked, tagged, filled_of, used_at};
ghost use Rattle.memory.specs.Memory.{put_of};

use order::UseOrder;
use state::Place;

// The state of a line, VV of its tag word: exclusive unmodified, exclusive modified, shared unmodified, invalid.
#[derive(Clone, Copy, PartialEq, Eq)]
pub enum LineState {
    Exclusive = 0,
    Modified = 1,
    Shared = 2,
    Invalid = 3,
}

impl LineState {
    // VV.
    fn bits(self) -> u32
        ensures { (result ≡ vv_of self) × (result < 4) }
    {
        self as u32
    }
}

// Set: physical bits 11-4.
pub fn set_of(address: u32) -> usize
    ensures { (result ≡ set_of address) × (result < 256) }
{
    words::bits(address, 11, 4) as usize
}

// Tag: bits 31-12.
pub fn tag_of(address: u32) -> u32
    ensures { (result ≡ tag_of address) × (result < 1048576) }
{
    words::bits(address, 31, 12)
}

// Where the tag word of a place stands in the directory.
fn tag_at(p: Place) -> usize
    ensures { (result ≡ tag_at p) × (result < 1279) }
{
    p.set() * 5 + p.number()
}

// Where the use code of a set stands.
fn code_at(p: Place) -> usize
    ensures { (result ≡ code_at p) × (result < 1280) }
{
    p.set() * 5 + 4
}

pub fn tag_word(lines: &[u32; 1280], p: Place) -> u32
    ensures { result ≡ tag_word lines.now p }
{
    lines[tag_at(p)]
}

pub fn state(word: u32) -> LineState
    ensures { vv_of result ≡ state_of word }
{
    match words::bits(word, 1, 0) {
        0 => LineState::Exclusive,
        1 => LineState::Modified,
        2 => LineState::Shared,
        _ => LineState::Invalid,
    }
}

pub fn is_valid(word: u32) -> bool
    ensures { result ≡ valid word }
{
    state(word) != LineState::Invalid
}

pub fn is_modified(word: u32) -> bool
    ensures { result ≡ modified word }
{
    state(word) == LineState::Modified
}

#[tactic(auto, unfolding(crate::specs::Lines::matches))]
fn is_line(word: u32, tag: u32) -> bool
    ensures { result ≡ matches word tag }
{
    is_valid(word) & (tag_of(word) == tag)
}

// The address of the first word of the line at a place, by its tag word.
pub fn line_address(p: Place, word: u32) -> u32
    ensures { result ≡ line_address p word }
{
    tag_of(word) * 4096 + p.set() as u32 * 16
}

// The tag words of a set's four lines.
fn tag_words(lines: &[u32; 1280], set: usize) -> [u32; 4]
    requires { set < 256 }
    ensures { result ≡ tag_words lines.now (set * 4) }
{
    [
        tag_word(lines, Place::of(set, 0)),
        tag_word(lines, Place::of(set, 1)),
        tag_word(lines, Place::of(set, 2)),
        tag_word(lines, Place::of(set, 3)),
    ]
}

// The lowest of a set's four lines that passes a test.
fn lowest(set: usize, passes: [bool; 4]) -> Option<Place>
    requires { set < 256 }
    ensures { (other : ℕ) → unwrap_or result other ≡ lowest_of passes (set * 4) other }
{
    let number = passes.iter().position(|&passed| passed)?;
    Some(Place::of(set, number))
}

// The line that an address hits: the lowest valid one of its set with its tag.
#[tactic(auto, unfolding(crate::specs::Lines::hit_of))]
pub fn hit(lines: &[u32; 1280], address: u32) -> Option<Place>
    ensures { unwrap_or result 1024 ≡ hit_of lines.now address }
{
    let tag = tag_of(address);
    let set = set_of(address);
    lowest(set, tag_words(lines, set).map(|word| is_line(word, tag)))
}

// The place that a miss takes: the lowest invalid line of the set, else the one earlier than all others, else line 0.
#[tactic(auto, unfolding(crate::specs::Lines::victim_of), using(order::specs::Laws::code_again))]
pub fn victim(lines: &[u32; 1280], address: u32) -> Place
    ensures { result ≡ victim_of lines.now address }
{
    let set = set_of(address);
    let free = tag_words(lines, set).map(|word| !is_valid(word));
    if let Some(p) = lowest(set, free) {
        return p;
    }
    let order = UseOrder::from(lines[code_at(Place::of(set, 0))]);
    Place::of(set, order.victim())
}

fn with_state(word: u32, state: LineState) -> u32
    ensures { result ≡ with_state word (vv_of state) }
{
    tag_of(word) * 4096 + state.bits()
}

// Sets the state of one line, and nothing else of it: the only place where a line's state changes.
#[tactic(auto, unfolding(crate::specs::Lines::marked))]
pub fn set_state(lines: &mut [u32; 1280], p: Place, state: LineState)
    ensures { lines.new ≡ marked lines.old p (vv_of state) }
{
    let at = tag_at(p);
    lines[at] = with_state(lines[at], state);
}

// Gives one line the tag of an address; its state stays.
#[tactic(auto, unfolding(crate::specs::Lines::tagged))]
fn set_tag(lines: &mut [u32; 1280], p: Place, address: u32)
    ensures { lines.new ≡ tagged lines.old p address }
{
    let at = tag_at(p);
    lines[at] = with_state(address, state(lines[at]));
}

// Fills one line: the four words, the address's tag, state 2.
#[tactic(auto, unfolding(crate::specs::Lines::filled_of))]
pub fn fill(lines: &mut [u32; 1280], cells: &mut [u32; 4096], p: Place, address: u32, part: &[u32])
    requires { 4 ≤ length part.now }
    ensures { (lines.new ≡ filled_of lines.old p address) × (cells.new ≡ put_of cells.old (p * 4) part.now) }
{
    memory::put(cells, p.index() * 4, part);
    set_tag(lines, p, address);
    set_state(lines, p, LineState::Shared);
}

// Records the use of one line in its set's code.
#[tactic(auto, unfolding(crate::specs::Lines::used_at), using(order::specs::Laws::code_again))]
pub fn note_use(lines: &mut [u32; 1280], p: Place)
    ensures { lines.new ≡ used_at lines.old p }
{
    let at = code_at(p);
    let next = UseOrder::from(lines[at]).used(p.number());
    lines[at] = next.code;
}
