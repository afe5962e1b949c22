// The C functions of a running unit, but for the numbers that they answer. Units, kinds and replies are plain words, as C has them.
#![tactic(auto)]

ghost use Rattle.std.specs.Prelude.{◌≡◌};
ghost use Rattle.state.specs.Refusal.{number_in};
ghost use Rattle.exports.specs.Exports.{access_out, access_to, access_export, snoop_out, snoop_export, read_out, read_export, write_out, write_export};

use state::{FaultPair, Refusal};

// Any access that is not refused, by the unit. It is cold, so that what it needs takes no register from a hit's way.
#[cold]
fn any_access(
    unit: &mut [u32; 16],
    pair: &mut FaultPair,
    patc: &mut [u32; 112],
    lines: &mut [u32; 1280],
    cells: &mut [u32; 4096],
    ram: &mut [u32],
    rom: &[u32],
    address: u32,
    kind: u32,
    enables: u32,
    word: u32,
    reply: &mut [u32; 24],
)
    ensures { access_out 0 unit.new pair.new patc.new lines.new cells.new ram.new reply.new ≡ access_to unit.old pair.old patc.old lines.old cells.old ram.old rom.now address kind enables word reply.old }
{
    let mut u = layout::registers(unit);
    let access = layout::access(address, kind, enables, word);
    let answer = unit::access(&mut u, pair, patc, lines, cells, ram, rom, access);
    layout::put_registers(unit, &u);
    layout::put_answer(reply, answer);
}

// One access; one that only touches a line is answered at once.
pub fn access(
    unit: &mut [u32; 16],
    pair: &mut FaultPair,
    patc: &mut [u32; 112],
    lines: &mut [u32; 1280],
    cells: &mut [u32],
    ram: &mut [u32],
    rom: &[u32],
    address: u32,
    kind: u32,
    enables: u32,
    word: u32,
    reply: &mut [u32; 24],
) -> Result<(), Refusal>
    ensures { access_out (number_in result) unit.new pair.new patc.new lines.new cells.new ram.new reply.new ≡ access_export unit.old pair.old patc.old lines.old cells.old ram.old rom.now address kind enables word reply.old }
{
    refusals::access(ram.len(), rom.len(), cells.len(), address, enables)?;
    let Some(cells) = cells.as_mut_array() else {
        unreachable!();
    };
    if let Ok(hit) = quick::look(unit, patc, lines, address, kind, enables) {
        quick::answer(lines, cells, hit, words::bit(kind, 6), enables, word, reply);
        return Ok(());
    }
    any_access(
        unit, pair, patc, lines, cells, ram, rom, address, kind, enables, word, reply,
    );
    Ok(())
}

pub fn snoop(
    unit: &mut [u32; 16],
    lines: &mut [u32; 1280],
    cells: &[u32],
    ram: &mut [u32],
    address: u32,
    kind: u32,
    reply: &mut [u32; 1],
) -> Result<(), Refusal>
    ensures { snoop_out (number_in result) unit.new lines.new ram.new reply.new ≡ snoop_export unit.old lines.old cells.now ram.old address kind reply.old }
{
    let mut u = layout::registers(unit);
    let g = words::bit(kind, 0);
    let im = words::bit(kind, 1);
    let answer = calls::snoop(&mut u, lines, cells, ram, address, g, im)?;
    layout::put_registers(unit, &u);
    *reply = [layout::snooped(answer)];
    Ok(())
}

pub fn read_register(
    unit: &[u32; 16],
    pair: &FaultPair,
    offset: u32,
    reply: &mut [u32; 1],
) -> Result<(), Refusal>
    ensures { read_out (number_in result) reply.new ≡ read_export unit.now pair.now offset reply.old }
{
    let u = layout::registers(unit);
    *reply = [calls::read_register(&u, pair, offset)?];
    Ok(())
}

pub fn write_register(
    unit: &mut [u32; 16],
    pair: &mut FaultPair,
    patc: &mut [u32; 112],
    lines: &mut [u32; 1280],
    cells: &[u32],
    ram: &mut [u32],
    rom: &[u32],
    offset: u32,
    value: u32,
    reply: &mut [u32; 1],
) -> Result<(), Refusal>
    ensures { write_out (number_in result) unit.new pair.new patc.new lines.new ram.new reply.new ≡ write_export unit.old pair.old patc.old lines.old cells.now ram.old rom.now offset value reply.old }
{
    let mut u = layout::registers(unit);
    let moved = calls::write_register(&mut u, pair, patc, lines, cells, ram, rom, offset, value)?;
    layout::put_registers(unit, &u);
    *reply = [moved];
    Ok(())
}
