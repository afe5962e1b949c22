// The flush commands: lines are copied back, made invalid, or both, by place.
#![tactic(auto)]

ghost use Rattle.std.specs.Prelude.{◌≡◌, ◌≤◌, IfOk};
ghost use Rattle.sweep.specs.Sweep.{line_in, flushed_in, swept, copied_of, line_of, sweep_of};

use lines::LineState;
use memory::BusError;
use state::Place;
use sweep::{Kind, Range, Stopped};

// Copies a line back and gives it its next state; on a bus error it stays as it was.
#[tactic(auto, unfolding(sweep::specs::Sweep::copied_of))]
fn copy_back(
    kind: Kind,
    lines: &mut [u32; 1280],
    cells: &[u32; 4096],
    ram: &mut [u32],
    p: Place,
    address: u32,
) -> Result<u32, BusError>
    ensures line { swept (line_in result) lines.new ram.new ≡ copied_of kind lines.old cells.now ram.old p address }
    ensures words { IfOk result (λ words. words ≤ 4) }
{
    memory::write_line(ram, address, cells::line_words(cells, p))?;
    lines::set_state(lines, p, sweep::after(kind));
    Ok(4)
}

// The command's work at one place, and the words moved.
#[tactic(auto, unfolding(sweep::specs::Sweep::line_of))]
fn flush_line(
    kind: Kind,
    range: Range,
    sar: u32,
    lines: &mut [u32; 1280],
    cells: &[u32; 4096],
    ram: &mut [u32],
    p: Place,
) -> Result<u32, BusError>
    ensures line { swept (line_in result) lines.new ram.new ≡ line_of kind range sar cells.now p lines.old ram.old }
    ensures words { IfOk result (λ words. words ≤ 4) }
{
    let word = lines::tag_word(lines, p);
    let address = lines::line_address(p, word);
    if !lines::is_valid(word) || !sweep::covers(range, sar, address) {
        return Ok(0);
    }
    if sweep::copies(kind) & lines::is_modified(word) {
        return copy_back(kind, lines, cells, ram, p, address);
    }
    if sweep::drops(kind) {
        lines::set_state(lines, p, LineState::Invalid);
    }
    Ok(0)
}

// A flush command: every valid line in the named range, by set, then number. The first bus error stops.
pub fn flush(
    kind: Kind,
    range: Range,
    sar: u32,
    lines: &mut [u32; 1280],
    cells: &[u32; 4096],
    ram: &mut [u32],
) -> Result<u32, Stopped>
    ensures { swept (flushed_in result) lines.new ram.new ≡ sweep_of kind range sar cells.now lines.old ram.old 1024 }
{
    let mut words: u32 = 0;
    for p in 0..1024 {
        match flush_line(kind, range, sar, lines, cells, ram, Place::at(p)) {
            Ok(more) => words += more,
            Err(e) => {
                return Err(Stopped {
                    words,
                    failing: e.address,
                });
            }
        }
    }
    Ok(words)
}
