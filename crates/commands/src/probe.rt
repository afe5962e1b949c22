// The probe: translation without the control and protection tests, writing no descriptor and loading no entry.
ghost use Rattle.std.specs.Prelude.{◌≡◌, ℕ, ◌+◌, ◌<◌, ◌≤◌};
ghost use Rattle.memory.specs.Memory.{read_of};
ghost use Rattle.registers.specs.Registers.{with_status};
ghost use Rattle.commands.specs.Probe.{ce_of, status_of, ran_of, read_by, valid_of, found_of, tables_of, probe_of};

use lookup::Place;
use pages::Translation;
use pages::tables::{combined, page_at, segment_at};
use state::Registers;

// BE of SSR.
pub(crate) const BUS_ERROR: u32 = 16384;

// CE, which flush and probe keep.
pub fn kept(ssr: u32) -> u32
    ensures { (result ≡ ce_of ssr) × (result ≤ 32768) }
{
    words::bits(ssr, 15, 15) * 32768
}

// SSR of an address that was found: the kept CE, the attributes, BH and V.
#[tactic(auto, unfolding(crate::specs::Probe::status_of))]
fn status(ssr: u32, t: Translation, bh: bool) -> u32
    ensures { result ≡ status_of ssr t bh }
{
    kept(ssr)
        + words::flag(t.wt, 512)
        + words::flag(t.sp, 256)
        + words::flag(t.g, 128)
        + words::flag(t.ci, 64)
        + words::flag(t.m, 16)
        + words::flag(t.u, 8)
        + words::flag(t.wp, 4)
        + words::flag(bh, 2)
        + 1
}

// SSR all clear but CE and what ended the command, SAR the address that ended it.
#[tactic(auto, unfolding(registers::specs::Registers::with_ssr, registers::specs::Registers::with_sar))]
pub(crate) fn end(u: &mut Registers, why: u32, at: u32)
    requires { why < 32768 }
    ensures { u.new ≡ with_status u.old (ce_of u.old.ssr + why) at }
{
    u.ssr = kept(u.ssr) + why;
    u.sar = at;
}

// Found: SAR is the physical address.
#[tactic(auto, unfolding(crate::specs::Probe::found_of, registers::specs::Registers::with_ssr, registers::specs::Registers::with_sar))]
fn found(u: &mut Registers, t: Translation, bh: bool)
    ensures { (words : ℕ) → ran_of u.new words ≡ found_of u.old t bh words }
{
    u.ssr = status(u.ssr, t, bh);
    u.sar = t.address;
}

// A valid descriptor; at an invalid one, or a bus error, the probe ends.
#[tactic(auto, unfolding(crate::specs::Probe::missing_of, crate::specs::Probe::failed_of))]
fn descriptor(u: &mut Registers, at: u32, words: &mut u32, ram: &[u32], rom: &[u32]) -> Option<u32>
    requires { words.old < 2 }
    ensures word { result ≡ valid_of (read_of ram.now rom.now at) }
    ensures ran { ran_of u.new words.new ≡ read_by u.old at words.old (read_of ram.now rom.now at) (ran_of u.old (words.old + 1)) }
{
    match memory::read_word(ram, rom, at) {
        Ok(read) => {
            *words += 1;
            if words::bit(read.moved, 0) {
                return Some(read.moved);
            }
            end(u, 0, at);
        }
        Err(error) => end(u, BUS_ERROR, error.address),
    }
    None
}

// The tables: the words moved are the descriptors read.
#[tactic(auto, unfolding(crate::specs::Probe::tables_of, crate::specs::Probe::page_of))]
fn tables(u: &mut Registers, area: u32, ram: &[u32], rom: &[u32]) -> u32
    ensures { ran_of u.new result ≡ tables_of u.old area ram.now rom.now }
{
    let sar = u.sar;
    let mut words = 0;
    if let Some(segment) = descriptor(u, segment_at(area, sar), &mut words, ram, rom)
        && let Some(page) = descriptor(u, page_at(segment, sar), &mut words, ram, rom)
    {
        found(u, combined(area, segment, page, sar), false);
    }
    words
}

// Probes SAR in one space.
#[tactic(auto, unfolding(crate::specs::Probe::probe_of, crate::specs::Probe::placed_of))]
pub fn probe(
    u: &mut Registers,
    supervisor: bool,
    patc: &[u32; 112],
    ram: &[u32],
    rom: &[u32],
) -> u32
    ensures { ran_of u.new result ≡ probe_of u.old supervisor patc.now ram.now rom.now }
{
    let area = registers::area(u, supervisor);
    match lookup::find(area, &u.ports, patc, u.sar, supervisor) {
        Some(Place::Unmapped(t) | Place::Page(_, t)) => found(u, t, false),
        Some(Place::Block(t)) => found(u, t, true),
        None => return tables(u, area, ram, rom),
    }
    0
}
