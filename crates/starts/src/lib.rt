// Calls that start a unit or keep it: reset, restoring a saved image, saving one.
#![tactic(auto)]

ghost use Rattle.std.specs.Prelude.{◌≡◌};
ghost use Rattle.state.specs.Refusal.{number_in};
ghost use Rattle.saved.specs.Chip.{chip};
ghost use Rattle.saved.specs.Image.{saved};
ghost use Rattle.starts.specs.Starts.{unit_said, unit_done, reset_call, restore_call, save_call};

use state::{FaultPair, Refusal, Registers};

// Reset, the host naming the unit's number: number 3.
pub fn reset(
    u: &mut Registers,
    pair: &mut FaultPair,
    patc: &mut [u32; 112],
    lines: &mut [u32; 1280],
    cells: &mut [u32],
    number: u8,
) -> Result<(), Refusal>
    ensures { unit_done (unit_said u.new result) pair.new patc.new lines.new cells.new ≡ reset_call (chip u.old pair.old patc.old lines.old cells.old) number }
{
    refusals::reset(cells.len())?;
    *u = state::reset(number);
    lent::store(pair, 0, 0);
    fresh::clear(patc);
    fresh::empty(lines);
    fresh::clear(cells);
    Ok(())
}

// A saved image is read into the unit: numbers 3 and 7 to 10.
pub fn restore(
    u: &mut Registers,
    pair: &mut FaultPair,
    patc: &mut [u32; 112],
    lines: &mut [u32; 1280],
    cells: &mut [u32],
    src: &[u8],
) -> Result<(), Refusal>
    ensures { unit_done (unit_said u.new result) pair.new patc.new lines.new cells.new ≡ restore_call (chip u.old pair.old patc.old lines.old cells.old) src.now }
{
    let Some(cells) = cells.as_mut_array() else {
        return Err(Refusal::CellsLength);
    };
    image::restore(src, u, pair, patc, lines, cells)
}

// The unit's image is written: numbers 3 and 11.
pub fn save(
    u: &Registers,
    pair: &FaultPair,
    patc: &[u32; 112],
    lines: &[u32; 1280],
    cells: &[u32],
    out: &mut [u8],
) -> Result<(), Refusal>
    ensures { saved (number_in result) out.new ≡ save_call (chip u.now pair.now patc.now lines.now cells.now) out.old }
{
    refusals::save(cells.len(), out.len())?;
    let Some(cells) = cells.as_array() else {
        unreachable!();
    };
    image::save(u, pair, patc, lines, cells, out)
}
