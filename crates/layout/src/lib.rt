// How a unit, an access and its answer are laid out in plain arrays.
#![tactic(auto)]

ghost use Rattle.std.specs.Prelude.{◌≡◌, []};
ghost use Rattle.layout.specs.Layout.{registers_of, unit_of, bits_of, row_of, words_of, access_as, reply_of, snooped_of};

use snoop::Snooped;
use state::{Access, Answer, Registers, Transaction};

// IDR, SCR, SSR, SAR, SCTR, SAPR, UAPR, pointer, then the ports. All sixteen are listed: `let [idr, .., ports @ ..] = *unit` was tried, and its proof did not close.
#[tactic(auto, unfolding(crate::specs::Layout::registers_of))]
pub fn registers(unit: &[u32; 16]) -> Registers
    ensures { result ≡ registers_of unit.now }
{
    let ports = [
        unit[8], unit[9], unit[10], unit[11], unit[12], unit[13], unit[14], unit[15],
    ];
    Registers {
        idr: unit[0],
        scr: unit[1],
        ssr: unit[2],
        sar: unit[3],
        sctr: unit[4],
        sapr: unit[5],
        uapr: unit[6],
        pointer: unit[7],
        ports,
    }
}

#[tactic(auto, unfolding(crate::specs::Layout::unit_of))]
pub fn put_registers(unit: &mut [u32; 16], u: &Registers)
    ensures { unit.new ≡ unit_of u.now }
{
    let ports = u.ports;
    *unit = [
        u.idr, u.scr, u.ssr, u.sar, u.sctr, u.sapr, u.uapr, u.pointer, ports[0], ports[1],
        ports[2], ports[3], ports[4], ports[5], ports[6], ports[7],
    ];
}

// An access's kind: bit 7 supervisor, bit 6 write, bit 5 lock.
#[tactic(auto, unfolding(crate::specs::Layout::access_as))]
pub fn access(address: u32, kind: u32, enables: u32, word: u32) -> Access
    ensures { result ≡ access_as address kind enables word }
{
    Access {
        address,
        supervisor: words::bit(kind, 7),
        write: words::bit(kind, 6),
        lock: words::bit(kind, 5),
        enables,
        word,
    }
}

// A transaction's bits: 0 write, 1 G, 2 IM, 3 LK, 4 CI.
#[tactic(auto, unfolding(crate::specs::Layout::bits_of))]
fn bits(t: &Transaction) -> u32
    ensures { result ≡ bits_of t.now }
{
    words::flag(t.write, 1)
        + words::flag(t.g, 2)
        + words::flag(t.im, 4)
        + words::flag(t.lk, 8)
        + words::flag(t.ci, 16)
}

// A transaction as three words.
fn row(t: &Transaction) -> [u32; 3]
    ensures { result ≡ words_of (row_of t.now) [] }
{
    [bits(t), t.address, u32::from(t.words)]
}

// An access's reply: the outcome's number, its value and address, words moved, transactions listed, then each transaction.
pub fn put_answer(reply: &mut [u32; 24], a: Answer)
    ensures { reply.new ≡ reply_of a }
{
    let outcome = a.outcome;
    let count = (a.count % 4294967296) as u32;
    *reply = [0; 24];
    reply[..5].copy_from_slice(&[
        outcome.number(),
        outcome.value(),
        outcome.place(),
        a.words,
        count,
    ]);
    for (i, t) in a.list.iter().enumerate() {
        let at = 5 + i * 3;
        reply[at..at + 3].copy_from_slice(&row(t));
    }
}

// A snoop's reply: 0 clear, 1 retry, 2 failed.
#[tactic(auto, unfolding(crate::specs::Layout::snooped_of))]
pub fn snooped(answer: Snooped) -> u32
    ensures { result ≡ snooped_of answer }
{
    answer as u32
}
