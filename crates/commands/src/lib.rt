// The commands that a write to SCR runs.
#![tactic(auto)]

pub mod probe;

ghost use Rattle.std.specs.Prelude.{◌≡◌};
ghost use Rattle.commands.specs.Commands.{command_of, flush_ran, flush_of, commanded, run_of};
ghost use Rattle.commands.specs.Probe.{ran_of};

use patc::Range as Entries;
use state::Registers;
use sweep::{Kind, Range};

#[derive(Clone, Copy)]
pub enum Command {
    Nothing,
    Flush(Kind, Range),
    Probe(bool),
    Clear(bool, Entries),
}

// Bits 5-0 of a word written to SCR; other codes do nothing.
impl From<u32> for Command {
    ghost from_gives = { λ code command. command ≡ command_of code };

    #[tactic(auto, using(crate::proofs::Codes::own), unfolding(crate::specs::Commands::command_of, crate::specs::Commands::range_of, crate::specs::Commands::probing_of, crate::specs::Commands::clearing_of))]
    fn from(code: u32) -> Command {
        match words::bits(code, 5, 0) {
            0x14 => Command::Flush(Kind::Invalidate, Range::Line),
            0x15 => Command::Flush(Kind::Invalidate, Range::Page),
            0x16 => Command::Flush(Kind::Invalidate, Range::Segment),
            0x17 => Command::Flush(Kind::Invalidate, Range::All),
            0x18 => Command::Flush(Kind::CopyBack, Range::Line),
            0x19 => Command::Flush(Kind::CopyBack, Range::Page),
            0x1A => Command::Flush(Kind::CopyBack, Range::Segment),
            0x1B => Command::Flush(Kind::CopyBack, Range::All),
            0x1C => Command::Flush(Kind::Both, Range::Line),
            0x1D => Command::Flush(Kind::Both, Range::Page),
            0x1E => Command::Flush(Kind::Both, Range::Segment),
            0x1F => Command::Flush(Kind::Both, Range::All),
            0x20 => Command::Probe(false),
            0x24 => Command::Probe(true),
            0x31 => Command::Clear(false, Entries::Page),
            0x32 => Command::Clear(false, Entries::Segment),
            0x33 => Command::Clear(false, Entries::All),
            0x35 => Command::Clear(true, Entries::Page),
            0x36 => Command::Clear(true, Entries::Segment),
            0x37 => Command::Clear(true, Entries::All),
            _ => Command::Nothing,
        }
    }
}

// A flush sets SSR anew, CE kept; its first bus error sets BE and puts the line's address in SAR.
#[tactic(auto, unfolding(crate::specs::Commands::flush_of, crate::specs::Commands::flushed_of, registers::specs::Registers::with_ssr, registers::specs::Registers::with_sar))]
fn flush(
    u: &mut Registers,
    kind: Kind,
    range: Range,
    lines: &mut [u32; 1280],
    cells: &[u32; 4096],
    ram: &mut [u32],
) -> u32
    ensures { flush_ran (ran_of u.new result) lines.new ram.new ≡ flush_of u.old kind range lines.old cells.now ram.old }
{
    match flush::flush(kind, range, u.sar, lines, cells, ram) {
        Ok(words) => {
            u.ssr = probe::kept(u.ssr);
            words
        }
        Err(e) => {
            probe::end(u, probe::BUS_ERROR, e.failing);
            e.words
        }
    }
}

// Runs the command that stands in SCR; the words that it moved.
#[tactic(auto, unfolding(crate::specs::Commands::run_of))]
pub fn run(
    u: &mut Registers,
    patc: &mut [u32; 112],
    lines: &mut [u32; 1280],
    cells: &[u32; 4096],
    ram: &mut [u32],
    rom: &[u32],
) -> u32
    ensures { commanded (ran_of u.new result) patc.new lines.new ram.new ≡ run_of u.old (command_of u.old.scr) patc.old lines.old cells.now ram.old rom.now }
{
    match Command::from(u.scr) {
        Command::Nothing => 0,
        Command::Flush(kind, range) => flush(u, kind, range, lines, cells, ram),
        Command::Probe(supervisor) => probe::probe(u, supervisor, patc, ram, rom),
        Command::Clear(supervisor, entries) => {
            patc::clear(patc, entries, supervisor, u.sar);
            0
        }
    }
}
