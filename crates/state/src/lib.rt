// What a unit is made of, what it is asked and what it answers; and which bits of each word are its own.
#![tactic(auto)]

pub mod own;
mod places;

ghost use Rattle.std.specs.Prelude.{◌≡◌};
ghost use Rattle.state.specs.Reset.{reset_of};
ghost use Rattle.state.specs.Outcome.{case_of, value_of, place_of, status_of, pair_of};
ghost use Rattle.state.specs.Refusal.{number_of};

pub use places::Place;

// The registers but for the fault pair: 000 to 00C, 104, 200 and 204, the PATC's pointer, and BWP0 to BWP7.
#[derive(Clone, Copy)]
pub struct Registers {
    pub idr: u32,
    pub scr: u32,
    pub ssr: u32,
    pub sar: u32,
    pub sctr: u32,
    pub sapr: u32,
    pub uapr: u32,
    pub pointer: u32,
    pub ports: [u32; 8],
}

// PFSR and PFAR, laid out for hosts in C. Both are 0 at reset.
#[repr(C)]
#[derive(Clone, Copy, Default)]
pub struct FaultPair {
    pub status: u32,
    pub address: u32,
}

// What the processor asks: a read, or a write of `word` under its enables.
#[derive(Clone, Copy)]
pub struct Access {
    pub address: u32,
    pub supervisor: bool,
    pub write: bool,
    pub lock: bool,
    pub enables: u32,
    pub word: u32,
}

// A fault's code as PFSR has it, and its address. The code stays a number: `FaultPair::from` and `course::failed` promise an answer for every code.
#[derive(Clone, Copy)]
pub struct Fault {
    pub code: u32,
    pub address: u32,
}

// How an access ended.
#[derive(Clone, Copy)]
pub enum Outcome {
    Idle,
    Word(u32),
    Written,
    Failed(Fault),
}

// One M bus transaction: read or write, its address (of a line, its first), the words moved, G, IM, LK and CI.
#[derive(Clone, Copy, Default)]
pub struct Transaction {
    pub write: bool,
    pub address: u32,
    pub words: u8,
    pub g: bool,
    pub im: bool,
    pub lk: bool,
    pub ci: bool,
}

// The answer to an access; beside it stand its transactions in order, and the count of words moved.
// The list is an array with its length beside it: there is no heap, and C has all six places.
#[derive(Clone, Copy)]
pub struct Answer {
    pub outcome: Outcome,
    pub list: [Transaction; 6],
    pub count: usize,
    pub words: u32,
}

// The registers at reset; the host names the unit's number.
#[tactic(auto, unfolding(crate::specs::Reset::reset_of))]
pub fn reset(number: u8) -> Registers
    ensures { result ≡ reset_of number }
{
    let ports = [0u32; 8];
    Registers {
        idr: u32::from(number) * 16777216 + 10485760,
        scr: 0,
        ssr: 0,
        sar: 0,
        sctr: 0,
        sapr: 64,
        uapr: 64,
        pointer: 0,
        ports,
    }
}

// PFSR for a fault's code, which stands in bits 18-16.
pub fn status(code: u32) -> u32
    ensures { result ≡ status_of code }
{
    words::bits(code, 2, 0) * 65536
}

// The pair that a fault leaves.
impl From<Fault> for FaultPair {
    ghost from_gives = { λ fault pair. pair ≡ pair_of fault };

    fn from(fault: Fault) -> FaultPair {
        FaultPair {
            status: status(fault.code),
            address: fault.address,
        }
    }
}

impl Outcome {
    // 0 idle, 1 the word read, 2 written, 3 fault.
    pub fn number(self) -> u32
        ensures { result ≡ case_of self }
    {
        match self {
            Outcome::Idle => 0,
            Outcome::Word(_) => 1,
            Outcome::Written => 2,
            Outcome::Failed(_) => 3,
        }
    }

    // The word that was read, or the fault's code.
    pub fn value(self) -> u32
        ensures { result ≡ value_of self }
    {
        match self {
            Outcome::Word(word) => word,
            Outcome::Failed(fault) => fault.code,
            Outcome::Idle | Outcome::Written => 0,
        }
    }

    // The fault's address.
    pub fn place(self) -> u32
        ensures { result ≡ place_of self }
    {
        match self {
            Outcome::Failed(fault) => fault.address,
            _ => 0,
        }
    }
}

// Why a malformed call is refused, by number; of those that apply, the lowest is the answer.
#[derive(Clone, Copy, PartialEq, Eq, Debug)]
pub enum Refusal {
    RamLength = 1,
    RomLength = 2,
    CellsLength = 3,
    Address = 4,
    Enables = 5,
    Offset = 6,
    ImageLength = 7,
    ImageHeads = 8,
    ImageBits = 9,
    ImageDoubles = 10,
    OutputLength = 11,
}

// The number that C functions answer.
impl From<Refusal> for u32 {
    ghost from_gives = { λ refusal number. number ≡ number_of refusal };

    fn from(refusal: Refusal) -> u32 {
        refusal as u32
    }
}
