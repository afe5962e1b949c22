// The C library: each export makes the call of its name, since no crate can call a static library's. include/mc88200.h says what each does.
#![tactic(auto)]

ghost use Rattle.std.specs.Prelude.{◌≡◌};
ghost use Rattle.saved.specs.Image.{saved};
ghost use Rattle.restarts.specs.Restarts.{unit_out, reset_export, restore_export, save_export};
ghost use Rattle.exports.specs.Exports.{access_out, access_export, snoop_out, snoop_export, read_out, read_export, write_out, write_export};

use state::FaultPair;

#[unsafe(no_mangle)]
pub extern "C" fn mc88200_reset(
    unit: &mut [u32; 16],
    fault: &mut FaultPair,
    patc: &mut [u32; 112],
    lines: &mut [u32; 1280],
    cells: &mut [u32],
    number: u8,
) -> u32
    ensures { unit_out result unit.new fault.new patc.new lines.new cells.new ≡ reset_export unit.old fault.old patc.old lines.old cells.old number }
{
    mc88200::mc88200_reset(unit, fault, patc, lines, cells, number)
}

#[unsafe(no_mangle)]
pub extern "C" fn mc88200_access(
    unit: &mut [u32; 16],
    fault: &mut FaultPair,
    patc: &mut [u32; 112],
    lines: &mut [u32; 1280],
    cells: &mut [u32],
    ram: &mut [u32],
    rom: &[u32],
    address: u32,
    kind: u32,
    enables: u32,
    word: u32,
    reply: &mut [u32; 24],
) -> u32
    ensures { access_out result unit.new fault.new patc.new lines.new cells.new ram.new reply.new ≡ access_export unit.old fault.old patc.old lines.old cells.old ram.old rom.now address kind enables word reply.old }
{
    mc88200::mc88200_access(
        unit, fault, patc, lines, cells, ram, rom, address, kind, enables, word, reply,
    )
}

#[unsafe(no_mangle)]
pub extern "C" fn mc88200_snoop(
    unit: &mut [u32; 16],
    lines: &mut [u32; 1280],
    cells: &[u32],
    ram: &mut [u32],
    address: u32,
    kind: u32,
    reply: &mut [u32; 1],
) -> u32
    ensures { snoop_out result unit.new lines.new ram.new reply.new ≡ snoop_export unit.old lines.old cells.now ram.old address kind reply.old }
{
    mc88200::mc88200_snoop(unit, lines, cells, ram, address, kind, reply)
}

#[unsafe(no_mangle)]
pub extern "C" fn mc88200_read_register(
    unit: &[u32; 16],
    fault: &FaultPair,
    offset: u32,
    reply: &mut [u32; 1],
) -> u32
    ensures { read_out result reply.new ≡ read_export unit.now fault.now offset reply.old }
{
    mc88200::mc88200_read_register(unit, fault, offset, reply)
}

#[unsafe(no_mangle)]
pub extern "C" fn mc88200_write_register(
    unit: &mut [u32; 16],
    fault: &mut FaultPair,
    patc: &mut [u32; 112],
    lines: &mut [u32; 1280],
    cells: &[u32],
    ram: &mut [u32],
    rom: &[u32],
    offset: u32,
    value: u32,
    reply: &mut [u32; 1],
) -> u32
    ensures { write_out result unit.new fault.new patc.new lines.new ram.new reply.new ≡ write_export unit.old fault.old patc.old lines.old cells.now ram.old rom.now offset value reply.old }
{
    mc88200::mc88200_write_register(
        unit, fault, patc, lines, cells, ram, rom, offset, value, reply,
    )
}

#[unsafe(no_mangle)]
pub extern "C" fn mc88200_save(
    unit: &[u32; 16],
    fault: &FaultPair,
    patc: &[u32; 112],
    lines: &[u32; 1280],
    cells: &[u32],
    out: &mut [u8],
) -> u32
    ensures { saved result out.new ≡ save_export unit.now fault.now patc.now lines.now cells.now out.old }
{
    mc88200::mc88200_save(unit, fault, patc, lines, cells, out)
}

#[unsafe(no_mangle)]
pub extern "C" fn mc88200_restore(
    unit: &mut [u32; 16],
    fault: &mut FaultPair,
    patc: &mut [u32; 112],
    lines: &mut [u32; 1280],
    cells: &mut [u32],
    image: &[u8],
) -> u32
    ensures { unit_out result unit.new fault.new patc.new lines.new cells.new ≡ restore_export unit.old fault.old patc.old lines.old cells.old image.now }
{
    mc88200::mc88200_restore(unit, fault, patc, lines, cells, image)
}
