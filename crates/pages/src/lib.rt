// From logical to physical: the block translations (BATC), and what a page translation and a table search's descriptors say.
#![tactic(auto, unfolding(crate::specs::Pages::unmapped_of, crate::specs::Pages::port_key, crate::specs::Pages::block_key, crate::specs::Pages::block_of, crate::specs::Pages::paged_of, crate::specs::Pages::protection_of))]

pub mod tables;

ghost use Rattle.std.specs.Prelude.{◌≡◌, ◌<◌, eqb, find};
ghost use Rattle.pages.specs.Pages.{port_key, block_key, port_of, valid_port, block_of, unmapped_of, paged_of, protection_of, violation_code, protection_code};

// A physical address with its attributes.
#[derive(Clone, Copy, Default)]
pub struct Translation {
    pub address: u32,
    pub wt: bool,
    pub sp: bool,
    pub g: bool,
    pub ci: bool,
    pub m: bool,
    pub u: bool,
    pub wp: bool,
}

// Translation is off: the address stays as it is, with the area pointer's WT, G and CI.
pub fn unmapped(area: u32, address: u32) -> Translation
    ensures { result ≡ unmapped_of area address }
{
    Translation {
        address,
        wt: words::bit(area, 9),
        sp: false,
        g: words::bit(area, 7),
        ci: words::bit(area, 6),
        m: false,
        u: false,
        wp: false,
    }
}

// A port's block, S and V, to be compared at once.
fn port_key(port: u32) -> u32
    ensures { result ≡ port_key port }
{
    words::bits(port, 31, 19) * 524288 + words::bits(port, 5, 5) * 32 + words::bits(port, 0, 0)
}

// .. of a port that an address hits.
fn block_key(address: u32, supervisor: bool) -> u32
    ensures { result ≡ block_key address supervisor }
{
    words::bits(address, 31, 19) * 524288 + words::flag(supervisor, 32) + 1
}

// The word of the lowest port that an address hits.
pub fn port(ports: &[u32], address: u32, supervisor: bool) -> Option<u32>
    ensures { result ≡ valid_port (port_of ports.now address supervisor) }
{
    keyed(ports, block_key(address, supervisor))
}

// The first port with a key.
fn keyed(ports: &[u32], key: u32) -> Option<u32>
    ensures { result ≡ find (λ port. eqb (port_key port) key) ports.now }
{
    ports.iter().copied().find(|port| port_key(*port) == key)
}

// The translation of a BATC word.
pub fn block(port: u32, address: u32) -> Translation
    ensures { result ≡ block_of port address }
{
    Translation {
        address: words::bits(port, 18, 6) * 524288 + words::bits(address, 18, 0),
        wt: words::bit(port, 4),
        sp: false,
        g: words::bit(port, 3),
        ci: words::bit(port, 2),
        m: false,
        u: false,
        wp: words::bit(port, 1),
    }
}

// The translation of a PATC frame word; an entry stands for a page in use.
pub fn paged(frame: u32, address: u32) -> Translation
    ensures { result ≡ paged_of frame address }
{
    Translation {
        address: words::bits(frame, 31, 12) * 4096 + words::bits(address, 11, 0),
        wt: words::bit(frame, 9),
        sp: words::bit(frame, 8),
        g: words::bit(frame, 7),
        ci: words::bit(frame, 6),
        m: words::bit(frame, 4),
        u: true,
        wp: words::bit(frame, 2),
    }
}

// Why a translation may not be used: a user's access to a supervisor's area, or a write to what is write protected.
#[derive(Clone, Copy)]
pub enum Violation {
    Supervisor,
    Write,
}

// The code of the fault that it is.
impl From<Violation> for u32 {
    fn from(violation: Violation) -> Self
        ensures { result ≡ violation_code violation }
    {
        match violation {
            Violation::Supervisor => 6,
            Violation::Write => 7,
        }
    }
}

// May an access use its translation? SP bars users, then WP bars writes.
pub fn protection(t: Translation, supervisor: bool, write: bool) -> Result<(), Violation>
    ensures { protection_code result ≡ protection_of t supervisor write }
{
    if t.sp & !supervisor {
        return Err(Violation::Supervisor);
    }
    if t.wp & write {
        return Err(Violation::Write);
    }
    Ok(())
}
