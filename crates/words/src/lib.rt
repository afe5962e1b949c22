// The smallest room: the fields of a word, and its four bytes.
#![tactic(auto)]

ghost use Rattle.std.specs.Prelude.{◌≡◌, ◌-◌, ◌+◌, ◌^◌, ◌<◌, ◌≤◌};
ghost use Rattle.words.specs.Words.{bits_of, bit_of, lane_of, merge_of, keep_of, join_of, flag_of};

// Bits `high` to `low` of a word.
pub fn bits(w: u32, high: u32, low: u32) -> u32
    requires { (low ≤ high) × (high < 32) }
    ensures { (result ≡ bits_of w high low) × (result < 2 ^ (high - low + 1)) }
{
    ((w as u64 >> low) % (1u64 << (high - low + 1))) as u32
}

// Is this bit of a word set?
pub fn bit(w: u32, n: u32) -> bool
    requires { n < 32 }
    ensures { result ≡ bit_of w n }
{
    (w >> n) % 2 == 1
}

// Byte `n` of `new` where it is enabled, else of `old`.
fn lane(enables: u32, old: u32, new: u32, n: u32) -> u32
    requires { n < 4 }
    ensures { (result ≡ lane_of enables old new n) × (result < 256) }
{
    if bit(enables, n) {
        return (new >> (8 * n)) % 256;
    }
    (old >> (8 * n)) % 256
}

// A word with its enabled bytes taken from `new`; enables 8, 4, 2, 1 name bytes 31-24 down to 7-0.
pub fn merge(enables: u32, old: u32, new: u32) -> u32
    ensures { result ≡ merge_of enables old new }
{
    if enables == 15 {
        return new;
    }
    lane(enables, old, new, 3) * 16777216
        + lane(enables, old, new, 2) * 65536
        + lane(enables, old, new, 1) * 256
        + lane(enables, old, new, 0)
}

// A word of which only the enabled bytes are kept: the others read as 0.
pub fn keep(enables: u32, w: u32) -> u32
    ensures { result ≡ keep_of enables w }
{
    merge(enables, 0, w)
}

// The word of four bytes, the highest first.
pub fn join(top: u8, upper: u8, lower: u8, last: u8) -> u32
    ensures { result ≡ join_of top upper lower last }
{
    u32::from_be_bytes([top, upper, lower, last])
}

// A flag's weight where it is set.
pub fn flag(set: bool, weight: u32) -> u32
    ensures { (result ≡ flag_of set weight) × (result ≤ weight) }
{
    if set { weight } else { 0 }
}
