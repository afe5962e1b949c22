// The saved image of a unit, edition 1: writing it and reading it.
#![tactic(auto)]

mod write;

ghost use Rattle.std.specs.Prelude.{◌≡◌};
ghost use Rattle.state.specs.Refusal.{number_in};
ghost use Rattle.saved.specs.Chip.{chip};
ghost use Rattle.saved.specs.Image.{saved, save_of};
ghost use Rattle.saved.specs.Verdict.{loaded, restore_of};

use saved::Layout;
use state::{FaultPair, Refusal, Registers};

// Writes the image of a unit, own bits only: refused where `out` has no room for it, and then nothing changes.
pub fn save(
    u: &Registers,
    pair: &FaultPair,
    patc: &[u32; 112],
    lines: &[u32; 1280],
    cells: &[u32; 4096],
    out: &mut [u8],
) -> Result<(), Refusal>
    ensures { saved (number_in result) out.new ≡ save_of (chip u.now pair.now patc.now lines.now cells.now) out.old }
{
    if out.len() < 22039 {
        return Err(Refusal::OutputLength);
    }
    write::field(1, Layout::Whole, &write::register_words(u, pair), out, 0);
    write::field(2, Layout::Whole, &u.ports, out, 43);
    write::field(3, Layout::Entries, patc, out, 78);
    write::field(4, Layout::Sets, lines, out, 529);
    write::field(5, Layout::Whole, cells, out, 5652);
    Ok(())
}

// Reads an image into a unit. One that fails a test is refused, and then nothing changes.
pub fn restore(
    src: &[u8],
    u: &mut Registers,
    pair: &mut FaultPair,
    patc: &mut [u32; 112],
    lines: &mut [u32; 1280],
    cells: &mut [u32; 4096],
) -> Result<(), Refusal>
    ensures { loaded (number_in result) u.new pair.new patc.new lines.new cells.new ≡ restore_of src.now (chip u.old pair.old patc.old lines.old cells.old) }
{
    saved::verdict::verdict(src)?;
    *u = saved::read::registers_at(src);
    let held = saved::read::pair_at(src);
    lent::store(pair, held.status, held.address);
    fields::get_words(src, 81, patc);
    fields::get_words(src, 532, lines);
    fields::get_words(src, 5655, cells);
    Ok(())
}
