// The answer to an access, and what an access leaves in the fault pair and the registers.
#![tactic(auto)]

ghost use Rattle.std.specs.Prelude.{◌≡◌, ◌<◌};
ghost use Rattle.state.specs.declared.Registers.{Registers};
ghost use Rattle.state.specs.Outcome.{pair_of};
ghost use Rattle.answers.specs.Answers.{total_of, fault_of, accessed, unlisted_of, failed_of, flown_by};

use state::{Answer, Fault, FaultPair, Outcome, Registers, Transaction};

// The words that the listed transactions moved.
fn total(list: &[Transaction; 6]) -> u32
    ensures { result ≡ total_of list.now }
{
    list.iter().map(|t| u32::from(t.words)).sum()
}

// A fault's code and address, stored where the host lends the pair.
fn store(pair: &mut FaultPair, fault: Fault)
    ensures { pair.new ≡ pair_of fault }
{
    let FaultPair { status, address } = FaultPair::from(fault);
    lent::store(pair, status, address);
}

// A fault sets the pair, and nothing else of an access does.
#[tactic(auto, unfolding(crate::specs::Answers::fault_of))]
fn fault(pair: &mut FaultPair, outcome: Outcome)
    ensures { pair.new ≡ fault_of pair.old outcome }
{
    if let Outcome::Failed(fault) = outcome {
        store(pair, fault);
    }
}

// An answer without transactions.
pub fn plain(outcome: Outcome, words: u32) -> Answer
    ensures { result ≡ unlisted_of outcome words }
{
    Answer {
        outcome,
        list: [course::no_transaction(); 6],
        count: 0,
        words,
    }
}

// A control access that reaches nobody: a bus error at its address.
#[tactic(auto, unfolding(crate::specs::Answers::failed_of, crate::specs::Answers::plain_of))]
pub fn failed(pair: &mut FaultPair, address: u32) -> Answer
    ensures { (u : Registers) → accessed u pair.new result ≡ failed_of u address }
{
    let fault = Fault { code: 3, address };
    store(pair, fault);
    plain(Outcome::Failed(fault), 0)
}

// The answer of a flight that has ended: its outcome, and the transactions that it listed.
#[tactic(auto, unfolding(registers::specs::Registers::with_pointer))]
pub fn flown(
    u: &mut Registers,
    pair: &mut FaultPair,
    outcome: Outcome,
    list: &[Transaction; 6],
    count: usize,
    pointer: u32,
) -> Answer
    ensures { accessed u.new pair.new result ≡ flown_by u.old pair.old outcome list.now count pointer }
{
    u.pointer = pointer;
    fault(pair, outcome);
    Answer {
        outcome,
        list: *list,
        count,
        words: total(list),
    }
}
