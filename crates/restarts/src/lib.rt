// Reset, restoring and saving on plain arrays.
#![tactic(auto)]

ghost use Rattle.std.specs.Prelude.{◌≡◌};
ghost use Rattle.state.specs.Refusal.{number_in};
ghost use Rattle.saved.specs.Image.{saved};
ghost use Rattle.restarts.specs.Restarts.{unit_out, reset_export, restore_export, save_export};

use state::{FaultPair, Refusal};

pub fn reset(
    unit: &mut [u32; 16],
    pair: &mut FaultPair,
    patc: &mut [u32; 112],
    lines: &mut [u32; 1280],
    cells: &mut [u32],
    number: u8,
) -> Result<(), Refusal>
    ensures { unit_out (number_in result) unit.new pair.new patc.new lines.new cells.new ≡ reset_export unit.old pair.old patc.old lines.old cells.old number }
{
    let mut u = layout::registers(unit);
    starts::reset(&mut u, pair, patc, lines, cells, number)?;
    layout::put_registers(unit, &u);
    Ok(())
}

pub fn restore(
    unit: &mut [u32; 16],
    pair: &mut FaultPair,
    patc: &mut [u32; 112],
    lines: &mut [u32; 1280],
    cells: &mut [u32],
    image: &[u8],
) -> Result<(), Refusal>
    ensures { unit_out (number_in result) unit.new pair.new patc.new lines.new cells.new ≡ restore_export unit.old pair.old patc.old lines.old cells.old image.now }
{
    let mut u = layout::registers(unit);
    starts::restore(&mut u, pair, patc, lines, cells, image)?;
    layout::put_registers(unit, &u);
    Ok(())
}

pub fn save(
    unit: &[u32; 16],
    pair: &FaultPair,
    patc: &[u32; 112],
    lines: &[u32; 1280],
    cells: &[u32],
    out: &mut [u8],
) -> Result<(), Refusal>
    ensures { saved (number_in result) out.new ≡ save_export unit.now pair.now patc.now lines.now cells.now out.old }
{
    starts::save(&layout::registers(unit), pair, patc, lines, cells, out)
}
