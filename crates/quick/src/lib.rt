// An access that only touches a line of the cache, told from the words of a unit; and its reply. Unit, kind and reply are numbers as C has them.
#![tactic(auto)]

ghost use Rattle.std.specs.Prelude.{◌≡◌};
ghost use Rattle.hits.specs.Hits.{hit_in};
ghost use Rattle.quick.specs.Quick.{plain_access, area_at, quick_of, plain_reply, lines_after, cells_after, reply_after};

use hits::Hit;

// An access that is neither idle nor locked, outside control space.
fn plain(address: u32, kind: u32, enables: u32) -> bool
    ensures { result ≡ plain_access address kind enables }
{
    let control = words::bit(kind, 7) & (0xFFF00000 <= address);
    (enables != 0) & !words::bit(kind, 5) & !control
}

fn area(unit: &[u32; 16], supervisor: bool) -> u32
    ensures { result ≡ area_at unit.now supervisor }
{
    if supervisor {
        return unit[5];
    }
    unit[6]
}

// The line that it touches, if there is one.
#[tactic(auto, unfolding(crate::specs::Quick::quick_of))]
pub fn look(
    unit: &[u32; 16],
    patc: &[u32; 112],
    lines: &[u32; 1280],
    address: u32,
    kind: u32,
    enables: u32,
) -> Result<Hit, u32>
    ensures { hit_in result ≡ quick_of unit.now patc.now lines.now address kind enables }
{
    if !plain(address, kind, enables) {
        return Err(0);
    }
    let supervisor = words::bit(kind, 7);
    let write = words::bit(kind, 6);
    hits::look(
        lines,
        area(unit, supervisor),
        &unit[8..],
        patc,
        address,
        supervisor,
        write,
    )
}

// A reply without a transaction: 1 and the word that was read, or 2 for one that was written.
#[tactic(auto, unfolding(crate::specs::Quick::plain_reply))]
fn put_reply(reply: &mut [u32; 24], case: u32, value: u32)
    ensures { reply.new ≡ plain_reply case value }
{
    *reply = [0; 24];
    reply[0] = case;
    reply[1] = value;
}

// The access is answered: the line is read or written, and used.
pub fn answer(
    lines: &mut [u32; 1280],
    cells: &mut [u32; 4096],
    hit: Hit,
    write: bool,
    enables: u32,
    word: u32,
    reply: &mut [u32; 24],
)
    ensures { (lines.new ≡ lines_after write lines.old hit) × (cells.new ≡ cells_after write cells.old hit enables word) × (reply.new ≡ reply_after write cells.old hit enables) }
{
    if write {
        hits::write(lines, cells, hit, enables, word);
        put_reply(reply, 2, 0);
    } else {
        let read = hits::read(lines, cells, hit, enables);
        put_reply(reply, 1, read);
    }
}
