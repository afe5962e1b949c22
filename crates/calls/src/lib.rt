// The calls to a running unit: what a call takes is tested, then the unit answers.
#![tactic(auto)]

ghost use Rattle.std.specs.Prelude.{◌≡◌};
ghost use Rattle.calls.specs.Calls.{access_done, access_said, access_call, snoop_done, snoop_said, snoop_call, read_said, read_call, write_done, write_said, write_call};

use snoop::Snooped;
use state::{Access, Answer, FaultPair, Refusal, Registers};

// One bus access: numbers 1 to 5.
pub fn access(
    u: &mut Registers,
    pair: &mut FaultPair,
    patc: &mut [u32; 112],
    lines: &mut [u32; 1280],
    cells: &mut [u32],
    ram: &mut [u32],
    rom: &[u32],
    access: Access,
) -> Result<Answer, Refusal>
    ensures { access_done (access_said u.new pair.new result) pair.new patc.new lines.new cells.new ram.new ≡ access_call u.old pair.old patc.old lines.old cells.old ram.old rom.now access }
{
    refusals::access(
        ram.len(),
        rom.len(),
        cells.len(),
        access.address,
        access.enables,
    )?;
    let Some(cells) = cells.as_mut_array() else {
        unreachable!();
    };
    Ok(unit::access(u, pair, patc, lines, cells, ram, rom, access))
}

// A snoop of another master's transaction: numbers 1, 3 and 4.
pub fn snoop(
    u: &mut Registers,
    lines: &mut [u32; 1280],
    cells: &[u32],
    ram: &mut [u32],
    address: u32,
    g: bool,
    im: bool,
) -> Result<Snooped, Refusal>
    ensures { snoop_done (snoop_said u.new result) lines.new ram.new ≡ snoop_call u.old lines.old cells.now ram.old address g im }
{
    refusals::snoop(ram.len(), cells.len(), address)?;
    let Some(cells) = cells.as_array() else {
        unreachable!();
    };
    Ok(unit::snoop(u, lines, cells, ram, address, g, im))
}

// A register read: number 6.
pub fn read_register(u: &Registers, pair: &FaultPair, offset: u32) -> Result<u32, Refusal>
    ensures { read_said result ≡ read_call u.now pair.now offset }
{
    refusals::read(offset)?;
    Ok(registers::read(u, pair, offset))
}

// A register write: numbers 1, 2, 3 and 6. It answers the words that its command moved.
pub fn write_register(
    u: &mut Registers,
    pair: &mut FaultPair,
    patc: &mut [u32; 112],
    lines: &mut [u32; 1280],
    cells: &[u32],
    ram: &mut [u32],
    rom: &[u32],
    offset: u32,
    value: u32,
) -> Result<u32, Refusal>
    ensures { write_done (write_said u.new result) pair.new patc.new lines.new ram.new ≡ write_call u.old pair.old patc.old lines.old cells.now ram.old rom.now offset value }
{
    refusals::write(ram.len(), rom.len(), cells.len(), offset)?;
    let Some(cells) = cells.as_array() else {
        unreachable!();
    };
    Ok(control::write_register(u, pair, patc, lines, cells, ram, rom, offset, value))
}
