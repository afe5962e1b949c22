// The public calls: a malformed call is refused, any other answered by the unit. The registers and the fault pair are lent,
// and updated where they stand. Each function is a call of `calls` or `starts` again: docs/PROMISES.md names both, and the edits of each
// crate change a body of its own.
#![tactic(auto)]

ghost use Rattle.std.specs.Prelude.{◌≡◌};
ghost use Rattle.state.specs.Refusal.{number_in};
ghost use Rattle.saved.specs.Chip.{chip};
ghost use Rattle.saved.specs.Image.{saved};
ghost use Rattle.calls.specs.Calls.{access_done, access_said, access_call, snoop_done, snoop_said, snoop_call, read_said, read_call, write_done, write_said, write_call};
ghost use Rattle.starts.specs.Starts.{unit_done, unit_said, reset_call, restore_call, save_call};

use snoop::Snooped;
use state::{Access, Answer, FaultPair, Refusal, Registers};

// One bus access: refuses 1 to 5.
pub fn access(
    u: &mut Registers,
    fault: &mut FaultPair,
    patc: &mut [u32; 112],
    lines: &mut [u32; 1280],
    cells: &mut [u32],
    ram: &mut [u32],
    rom: &[u32],
    access: Access,
) -> Result<Answer, Refusal>
    ensures { access_done (access_said u.new fault.new result) fault.new patc.new lines.new cells.new ram.new ≡ access_call u.old fault.old patc.old lines.old cells.old ram.old rom.now access }
{
    calls::access(u, fault, patc, lines, cells, ram, rom, access)
}

// A snoop of another master's transaction: refuses 1, 3 and 4.
pub fn snoop(
    u: &mut Registers,
    lines: &mut [u32; 1280],
    cells: &[u32],
    ram: &mut [u32],
    address: u32,
    g: bool,
    im: bool,
) -> Result<Snooped, Refusal>
    ensures { snoop_done (snoop_said u.new result) lines.new ram.new ≡ snoop_call u.old lines.old cells.now ram.old address g im }
{
    calls::snoop(u, lines, cells, ram, address, g, im)
}

// A register read: refuses 6.
pub fn read_register(u: &Registers, fault: &FaultPair, offset: u32) -> Result<u32, Refusal>
    ensures { read_said result ≡ read_call u.now fault.now offset }
{
    calls::read_register(u, fault, offset)
}

// A register write: refuses 1, 2, 3 and 6. It answers the words that its command moved.
pub fn write_register(
    u: &mut Registers,
    fault: &mut FaultPair,
    patc: &mut [u32; 112],
    lines: &mut [u32; 1280],
    cells: &[u32],
    ram: &mut [u32],
    rom: &[u32],
    offset: u32,
    value: u32,
) -> Result<u32, Refusal>
    ensures { write_done (write_said u.new result) fault.new patc.new lines.new ram.new ≡ write_call u.old fault.old patc.old lines.old cells.now ram.old rom.now offset value }
{
    calls::write_register(u, fault, patc, lines, cells, ram, rom, offset, value)
}

// Reset, the host naming the unit's number: refuses 3.
pub fn reset(
    u: &mut Registers,
    fault: &mut FaultPair,
    patc: &mut [u32; 112],
    lines: &mut [u32; 1280],
    cells: &mut [u32],
    number: u8,
) -> Result<(), Refusal>
    ensures { unit_done (unit_said u.new result) fault.new patc.new lines.new cells.new ≡ reset_call (chip u.old fault.old patc.old lines.old cells.old) number }
{
    starts::reset(u, fault, patc, lines, cells, number)
}

// A saved image is read into the unit: refuses 3 and 7 to 10.
pub fn restore(
    u: &mut Registers,
    fault: &mut FaultPair,
    patc: &mut [u32; 112],
    lines: &mut [u32; 1280],
    cells: &mut [u32],
    src: &[u8],
) -> Result<(), Refusal>
    ensures { unit_done (unit_said u.new result) fault.new patc.new lines.new cells.new ≡ restore_call (chip u.old fault.old patc.old lines.old cells.old) src.now }
{
    starts::restore(u, fault, patc, lines, cells, src)
}

// The unit's image is written: refuses 3 and 11.
pub fn save(
    u: &Registers,
    fault: &FaultPair,
    patc: &[u32; 112],
    lines: &[u32; 1280],
    cells: &[u32],
    out: &mut [u8],
) -> Result<(), Refusal>
    ensures { saved (number_in result) out.new ≡ save_call (chip u.now fault.now patc.now lines.now cells.now) out.old }
{
    starts::save(u, fault, patc, lines, cells, out)
}
