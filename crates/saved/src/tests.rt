// Tests of an image's words, where they stand in its bytes: own bits, orders, and nothing valid twice.
ghost use Rattle.std.specs.Prelude.{◌≡◌, ◌+◌, ◌*◌, ◌≤◌, length};
ghost use Rattle.fields.specs.Fields.{word_from};
ghost use Rattle.saved.specs.Tests.{registers_own, all_own, all_orders, alike, none_like, apart, sets_apart};

use crate::{Kind, Layout, own_word};
use order::UseOrder;
use state::{FaultPair, Registers, own};

// Have the registers own bits only?
#[tactic(auto, unfolding(crate::specs::Tests::registers_own))]
pub fn registers_own(u: Registers, pair: FaultPair) -> bool
    ensures { result ≡ registers_own u pair }
{
    (own::idr(u.idr) == u.idr)
        & (own::code(u.scr) == u.scr)
        & (own::ssr(u.ssr) == u.ssr)
        & (own::sctr(u.sctr) == u.sctr)
        & (own::status(pair.status) == pair.status)
        & (own::area(u.sapr) == u.sapr)
        & (own::area(u.uapr) == u.uapr)
        & (own::pointer(u.pointer) == u.pointer)
}

// Have the `n` words from `at` on own bits only?
pub fn all_own(layout: Layout, src: &[u8], at: usize, n: usize) -> bool
    requires { at + n * 4 ≤ length src.now }
    ensures { result ≡ all_own layout n (word_from src.now at 4) }
{
    (0..n).all(|i| {
        let w = fields::word_at(src, at + i * 4);
        own_word(layout, i, w) == w
    })
}

// Is the use code of each of the `n` sets from `at` on an order?
pub fn all_orders(src: &[u8], at: usize, n: usize) -> bool
    requires { at + n * 20 ≤ length src.now }
    ensures { result ≡ all_orders n (word_from src.now at 4) }
{
    (0..n).all(|s| UseOrder::from(fields::word_at(src, at + s * 20 + 16)).is_order())
}

// Are two lines valid, with one tag; or two PATC entries valid, with one page and space?
#[tactic(auto, unfolding(crate::specs::Tests::alike))]
fn are_alike(kind: Kind, a: u32, b: u32) -> bool
    ensures { result ≡ alike kind a b }
{
    match kind {
        Kind::Line => {
            (words::bits(a, 1, 0) != 3)
                & (words::bits(b, 1, 0) != 3)
                & (words::bits(a, 31, 12) == words::bits(b, 31, 12))
        }
        Kind::Entry => {
            words::bit(a, 0)
                & words::bit(b, 0)
                & (words::bits(a, 31, 12) == words::bits(b, 31, 12))
                & (words::bits(a, 1, 1) == words::bits(b, 1, 1))
        }
    }
}

// Of the words that stand every `step` bytes from `at` on, is none before word `n` like it?
fn none_like(kind: Kind, src: &[u8], at: usize, step: usize, n: usize) -> bool
    requires { (at + n * step + step ≤ length src.now) × (4 ≤ step) }
    ensures { result ≡ none_like kind n (word_from src.now at step) }
{
    let w = fields::word_at(src, at + n * step);
    (0..n).all(|i| !are_alike(kind, fields::word_at(src, at + i * step), w))
}

// .. are no two of the first `n` alike?
pub fn all_apart(kind: Kind, src: &[u8], at: usize, step: usize, n: usize) -> bool
    requires { (at + n * step ≤ length src.now) × (4 ≤ step) }
    ensures { result ≡ apart kind n (word_from src.now at step) }
{
    (0..n).all(|j| none_like(kind, src, at, step, j))
}

// In each of the `n` sets from `at` on, are no two lines alike?
pub fn sets_apart(src: &[u8], at: usize, n: usize) -> bool
    requires { at + n * 20 ≤ length src.now }
    ensures { result ≡ sets_apart n (word_from src.now at 4) }
{
    (0..n).all(|s| all_apart(Kind::Line, src, at + s * 20, 4, 4))
}
