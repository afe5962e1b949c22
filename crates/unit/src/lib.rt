// One unit on its memory: accesses and snoops. What it stands on is lent part by part, as C has it, each in memory of its own: a struct
// could only hold those loans, and each contract would have to add that they are the same loans afterwards.
#![tactic(auto)]

ghost use Rattle.std.specs.Prelude.{◌≡◌};
ghost use Rattle.answers.specs.Answers.{accessed};
ghost use Rattle.unit.specs.Unit.{whole, mapped_of, access_of, watched_of, watched, snoop_of};

use snoop::Snooped;
use state::{Access, Answer, FaultPair, Outcome, Registers};

// An access through the translations and the cache.
fn mapped(
    u: &mut Registers,
    pair: &mut FaultPair,
    patc: &mut [u32; 112],
    lines: &mut [u32; 1280],
    cells: &mut [u32; 4096],
    ram: &mut [u32],
    rom: &[u32],
    access: Access,
) -> Answer
    ensures { whole (accessed u.new pair.new result) patc.new lines.new cells.new ram.new ≡ mapped_of u.old pair.old patc.old lines.old cells.old ram.old rom.now access }
{
    let area = registers::area(u, access.supervisor);
    let f = flight::begin(access, area, &u.ports, u.pointer, patc, lines, cells);
    let f = driver::run(f, patc, lines, cells, ram, rom);
    let c = f.course;
    answers::flown(u, pair, f.outcome, &c.list, c.count, c.pointer)
}

// One bus access.
#[tactic(auto, unfolding(crate::specs::Unit::access_of, answers::specs::Answers::plain_of))]
pub fn access(
    u: &mut Registers,
    pair: &mut FaultPair,
    patc: &mut [u32; 112],
    lines: &mut [u32; 1280],
    cells: &mut [u32; 4096],
    ram: &mut [u32],
    rom: &[u32],
    access: Access,
) -> Answer
    ensures { whole (accessed u.new pair.new result) patc.new lines.new cells.new ram.new ≡ access_of u.old pair.old patc.old lines.old cells.old ram.old rom.now access }
{
    if access.enables == 0 {
        return answers::plain(Outcome::Idle, 0);
    }
    if access.supervisor && 0xFFF00000 <= access.address {
        return control::control(u, pair, patc, lines, cells, ram, rom, access);
    }
    mapped(u, pair, patc, lines, cells, ram, rom, access)
}

// A snoop of another master's transaction acts if SE and G are set; a failed copyback sets CE.
#[tactic(auto, unfolding(crate::specs::Unit::snoop_of, crate::specs::Unit::after_snoop, registers::specs::Registers::with_ssr))]
pub fn snoop(
    u: &mut Registers,
    lines: &mut [u32; 1280],
    cells: &[u32; 4096],
    ram: &mut [u32],
    address: u32,
    g: bool,
    im: bool,
) -> Snooped
    ensures { watched (watched_of u.new result) lines.new ram.new ≡ snoop_of u.old lines.old cells.now ram.old address g im }
{
    let enabled = words::bit(u.sctr, 14) && g;
    let answer = snoop::snoop(enabled, im, address, lines, cells, ram);
    if matches!(answer, Snooped::Failed) {
        u.ssr = state::own::ssr(u.ssr) % 32768 + 32768;
    }
    answer
}
