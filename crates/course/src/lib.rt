// What a flight carries from one transaction to the next, and how it goes on or ends.
#![tactic(auto)]

pub mod next;

ghost use Rattle.std.specs.Prelude.{◌≡◌, ◌<◌};
ghost use Rattle.memory.specs.Memory.{moved_of};
ghost use Rattle.course.specs.Course.{no_transaction, no_translation, fresh_of, slot_of, with_want, listed_of, wanting_of, ended_of, failed_of, carried_by, searched_of};

use memory::BusError;
use pages::Translation;
use state::{Access, Fault, Outcome, Place, Transaction};

// Which transaction is wanted next. It is an enum and no closure: the check refuses a closure that is handed out, as a flight is with its stage;
// and `driver::turn` promises `turn_of`, which goes by the stage.
#[derive(Clone, Copy)]
pub enum Stage {
    Done,
    Segment,
    Page,
    Update,
    Drop,
    Back,
    Fill,
    Store,
    Single,
}

#[derive(Clone, Copy)]
pub struct Course {
    pub access: Access,
    // the transaction wanted next, those listed so far: an array with its length, since there is no heap
    pub want: Transaction,
    pub list: [Transaction; 6],
    pub count: usize,
    // a search: the area pointer, the entry to renew (56: none, as `with_entry` and `loaded_of` have it), the segment descriptor or the page descriptor to write
    pub area: u32,
    pub entry: usize,
    pub descriptor: u32,
    pub pointer: u32,
    // the translation, and the line's place
    pub t: Translation,
    pub place: Place,
}

#[derive(Clone, Copy)]
pub struct Flight {
    pub stage: Stage,
    pub outcome: Outcome,
    pub course: Course,
}

// No transaction: what stands in a place of the list that is not used.
pub fn no_transaction() -> Transaction
    ensures { result ≡ no_transaction }
{
    Transaction::default()
}

#[tactic(auto, unfolding(crate::specs::Course::fresh_of))]
pub fn fresh(access: Access, area: u32, pointer: u32) -> Course
    ensures { result ≡ fresh_of access area pointer }
{
    let none = no_transaction();
    Course {
        access,
        want: none,
        list: [none; 6],
        count: 0,
        area,
        entry: 56,
        descriptor: 0,
        pointer,
        t: Translation::default(),
        place: Place::of(0, 0),
    }
}

// Where the next transaction is listed. There are never more than six.
fn slot(count: usize) -> usize
    ensures { (result ≡ slot_of count) × (result < 6) }
{
    if count < 6 { count } else { 5 }
}

// The wanted transaction listed, with the words that it moved.
#[tactic(auto, unfolding(crate::specs::Course::listed_of))]
pub fn listed(c: Course, words: u8) -> Course
    ensures { result ≡ listed_of c (moved_of words) }
{
    let n = slot(c.count);
    let mut d = c;
    d.list[n] = Transaction { words, ..c.want };
    d.count = n + 1;
    d
}

#[tactic(auto, unfolding(crate::specs::Course::with_want))]
pub fn wanting(c: Course, want: Transaction, stage: Stage) -> Flight
    ensures { result ≡ wanting_of (with_want c want) stage }
{
    Flight {
        stage,
        outcome: Outcome::Idle,
        course: Course { want, ..c },
    }
}

pub fn ended(c: Course, outcome: Outcome) -> Flight
    ensures { result ≡ ended_of c outcome }
{
    Flight {
        stage: Stage::Done,
        outcome,
        course: c,
    }
}

// Any fault ends the access.
pub fn failed(c: Course, code: u32, address: u32) -> Flight
    ensures { result ≡ failed_of c code address }
{
    ended(c, Outcome::Failed(Fault { code, address }))
}

// The wanted transaction met a bus error: it is listed, and the access ends in fault 3.
pub fn bus_error(c: Course, e: BusError) -> Flight
    ensures { result ≡ failed_of (listed_of c (moved_of e.words)) 3 e.address }
{
    failed(listed(c, e.words), 3, e.address)
}

// A transaction of a search: G is the area's, CI 0.
#[tactic(auto, unfolding(crate::specs::Course::searched_of))]
pub fn searched(c: &Course, write: bool, address: u32) -> Transaction
    ensures { result ≡ searched_of c.now write address }
{
    Transaction {
        write,
        address,
        words: 1,
        g: words::bit(c.area, 7),
        im: write,
        lk: false,
        ci: false,
    }
}

// A transaction for the access's own data: CI is 1 if it is locked, else the translation's.
pub fn carried(
    access: &Access,
    t: &Translation,
    write: bool,
    address: u32,
    words: u8,
    g: bool,
    im: bool,
    lk: bool,
) -> Transaction
    ensures { result ≡ carried_by access.now t.now write address words g im lk }
{
    Transaction {
        write,
        address,
        words,
        g,
        im,
        lk,
        ci: access.lock | t.ci,
    }
}
