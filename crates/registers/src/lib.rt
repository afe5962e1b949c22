// The registers by their offsets. SCR is not here: a write to it runs a command.
#![tactic(auto)]

ghost use Rattle.std.specs.Prelude.{◌≡◌};
ghost use Rattle.registers.specs.Registers.{area_of, read_of, set_of, stored_of};

use state::{FaultPair, Registers};

// The area pointer of an access's space.
pub fn area(u: &Registers, supervisor: bool) -> u32
    ensures { result ≡ area_of u.now supervisor }
{
    if supervisor { u.sapr } else { u.uapr }
}

// The offsets stay numbers: they are what hosts pass, and a match on them is the table of the document.
// A register read: other offsets and the write ports read as 0.
#[tactic(auto, unfolding(crate::specs::Registers::read_of))]
pub fn read(u: &Registers, pair: &FaultPair, offset: u32) -> u32
    ensures { result ≡ read_of u.now pair.now offset }
{
    match offset {
        0x000 => state::own::idr(u.idr),
        0x004 => state::own::code(u.scr),
        0x008 => state::own::ssr(u.ssr),
        0x00C => u.sar,
        0x104 => state::own::sctr(u.sctr),
        0x108 => state::own::status(pair.status),
        0x10C => pair.address,
        0x200 => state::own::area(u.sapr),
        0x204 => state::own::area(u.uapr),
        _ => 0,
    }
}

// A register write that runs no command: writes to IDR and to other offsets do nothing.
#[tactic(auto, unfolding(crate::specs::Registers::set_register_of, crate::specs::Registers::set_fault_of, crate::specs::Registers::set_port_of, crate::specs::Registers::with_ssr, crate::specs::Registers::with_sar, crate::specs::Registers::with_sctr, crate::specs::Registers::with_sapr, crate::specs::Registers::with_uapr, crate::specs::Registers::with_port))]
pub fn set(u: &mut Registers, pair: &mut FaultPair, offset: u32, value: u32)
    ensures { stored_of u.new pair.new 0 ≡ set_of u.old pair.old offset value }
{
    match offset {
        0x008 => u.ssr = state::own::ssr(value),
        0x00C => u.sar = value,
        0x104 => u.sctr = state::own::sctr(value),
        0x108 => lent::store(pair, state::own::status(value), pair.address),
        0x10C => lent::store(pair, pair.status, value),
        0x200 => u.sapr = state::own::area(value),
        0x204 => u.uapr = state::own::area(value),
        0x400..=0x41C => u.ports[((offset - 0x400) / 4) as usize] = value,
        _ => {}
    }
}
