// Register writes, and control space: the unit's own registers at supervisor addresses from FFF00000 up.
#![tactic(auto)]

ghost use Rattle.std.specs.Prelude.{◌≡◌};
ghost use Rattle.registers.specs.Registers.{stored_of};
ghost use Rattle.answers.specs.Answers.{accessed};
ghost use Rattle.control.specs.Control.{kept, controlled, write_of, reaches_of, control_of};

use state::{Access, Answer, FaultPair, Outcome, Registers};

// A register write, and the words that it moved: SCR runs a command.
#[tactic(auto, unfolding(crate::specs::Control::write_of, registers::specs::Registers::with_scr))]
pub fn write_register(
    u: &mut Registers,
    pair: &mut FaultPair,
    patc: &mut [u32; 112],
    lines: &mut [u32; 1280],
    cells: &[u32; 4096],
    ram: &mut [u32],
    rom: &[u32],
    offset: u32,
    value: u32,
) -> u32
    ensures { kept (stored_of u.new pair.new result) patc.new lines.new ram.new ≡ write_of u.old pair.old patc.old lines.old cells.now ram.old rom.now offset value }
{
    if offset == 4 {
        u.scr = state::own::code(value);
        return commands::run(u, patc, lines, cells, ram, rom);
    }
    registers::set(u, pair, offset, value);
    0
}

// Does a control access reach this unit's registers?
fn reaches(u: &Registers, access: &Access) -> bool
    ensures { result ≡ reaches_of u.now access.now }
{
    access.enables == 15 && words::bits(access.address, 19, 12) == words::bits(u.idr, 31, 24)
}

// An access to control space: this unit's registers, or a bus error.
#[tactic(auto, unfolding(crate::specs::Control::control_of, answers::specs::Answers::written_of, answers::specs::Answers::plain_of))]
pub fn control(
    u: &mut Registers,
    pair: &mut FaultPair,
    patc: &mut [u32; 112],
    lines: &mut [u32; 1280],
    cells: &[u32; 4096],
    ram: &mut [u32],
    rom: &[u32],
    access: Access,
) -> Answer
    ensures { controlled (accessed u.new pair.new result) patc.new lines.new ram.new ≡ control_of u.old pair.old patc.old lines.old cells.now ram.old rom.now access }
{
    if !reaches(u, &access) {
        return answers::failed(pair, access.address);
    }
    let offset = words::bits(access.address, 11, 0);
    if access.write {
        let words = write_register(u, pair, patc, lines, cells, ram, rom, offset, access.word);
        return answers::plain(Outcome::Written, words);
    }
    answers::plain(Outcome::Word(registers::read(u, pair, offset)), 0)
}
