// Which lines a flush command covers, and what becomes of each.
#![tactic(auto)]

ghost use Rattle.std.specs.Prelude.{◌≡◌};
ghost use Rattle.lines.specs.Lines.{vv_of};
ghost use Rattle.sweep.specs.Sweep.{covers_of, copies_of, drops_of, after_of};

use lines::LineState;

// 14-17 invalidate, 18-1B copy back, 1C-1F both.
#[derive(Clone, Copy)]
pub enum Kind {
    Invalidate,
    CopyBack,
    Both,
}

// The low two bits: a line, a page, a segment, all; by the physical SAR.
#[derive(Clone, Copy)]
pub enum Range {
    Line,
    Page,
    Segment,
    All,
}

// A flush that a bus error stopped: the words moved before it, and the line's address.
#[derive(Clone, Copy)]
pub struct Stopped {
    pub words: u32,
    pub failing: u32,
}

// Is the line at this address in the range that SAR names?
pub fn covers(range: Range, sar: u32, address: u32) -> bool
    ensures { result ≡ covers_of range sar address }
{
    match range {
        Range::Line => words::bits(address, 31, 4) == words::bits(sar, 31, 4),
        Range::Page => words::bits(address, 31, 12) == words::bits(sar, 31, 12),
        Range::Segment => words::bits(address, 31, 22) == words::bits(sar, 31, 22),
        Range::All => true,
    }
}

pub fn copies(kind: Kind) -> bool
    ensures { result ≡ copies_of kind }
{
    matches!(kind, Kind::CopyBack | Kind::Both)
}

pub fn drops(kind: Kind) -> bool
    ensures { result ≡ drops_of kind }
{
    matches!(kind, Kind::Invalidate | Kind::Both)
}

// The state of a copied line: exclusive, or invalid where the command drops it too.
pub fn after(kind: Kind) -> LineState
    ensures { vv_of result ≡ after_of kind }
{
    if drops(kind) {
        LineState::Invalid
    } else {
        LineState::Exclusive
    }
}
