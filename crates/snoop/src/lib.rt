// Another master's transaction, as this unit sees it.
#![tactic(auto)]

ghost use Rattle.std.specs.Prelude.{◌≡◌};
ghost use Rattle.lines.specs.Lines.{vv_of};
ghost use Rattle.snoop.specs.Snoop.{snooped, yield_of, retried_of, hit_by, snoop_of};

use lines::LineState;
use state::Place;

// What a snooping unit answers.
#[derive(Clone, Copy)]
pub enum Snooped {
    Clear,
    Retry,
    Failed,
}

// The state that a line yields to: shared, or invalid with intent to modify.
fn yields(im: bool) -> LineState
    ensures { vv_of result ≡ yield_of im }
{
    if im {
        LineState::Invalid
    } else {
        LineState::Shared
    }
}

// A modified line is copied back, then yields; a failed copyback leaves it.
#[tactic(auto, unfolding(crate::specs::Snoop::retried_of))]
fn give(
    im: bool,
    lines: &mut [u32; 1280],
    cells: &[u32; 4096],
    ram: &mut [u32],
    p: Place,
    word: u32,
) -> Snooped
    ensures { snooped result lines.new ram.new ≡ retried_of im lines.old cells.now ram.old p word }
{
    let at = lines::line_address(p, word);
    match memory::write_line(ram, at, cells::line_words(cells, p)) {
        Ok(_) => {
            lines::set_state(lines, p, yields(im));
            Snooped::Retry
        }
        Err(_) => Snooped::Failed,
    }
}

// The line that a snoop hit gives way: a modified one is copied back first.
#[tactic(auto, unfolding(crate::specs::Snoop::hit_by))]
fn give_way(
    im: bool,
    lines: &mut [u32; 1280],
    cells: &[u32; 4096],
    ram: &mut [u32],
    p: Place,
) -> Snooped
    ensures { snooped result lines.new ram.new ≡ hit_by im p lines.old cells.now ram.old }
{
    let word = lines::tag_word(lines, p);
    if lines::is_modified(word) {
        return give(im, lines, cells, ram, p, word);
    }
    lines::set_state(lines, p, yields(im));
    Snooped::Clear
}

// A snoop of a transaction at an address; `enabled` says that SE and G are set.
#[tactic(auto, unfolding(crate::specs::Snoop::snoop_of))]
pub fn snoop(
    enabled: bool,
    im: bool,
    address: u32,
    lines: &mut [u32; 1280],
    cells: &[u32; 4096],
    ram: &mut [u32],
) -> Snooped
    ensures { snooped result lines.new ram.new ≡ snoop_of enabled im address lines.old cells.now ram.old }
{
    if !enabled {
        return Snooped::Clear;
    }
    match lines::hit(lines, address) {
        Some(p) => give_way(im, lines, cells, ram, p),
        None => Snooped::Clear,
    }
}
