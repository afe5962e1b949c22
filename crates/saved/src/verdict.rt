// Whether an image is taken: each test over the whole image before the next. No test stores anything.
ghost use Rattle.std.specs.Prelude.{◌≡◌};
ghost use Rattle.state.specs.Refusal.{number_in};
ghost use Rattle.saved.specs.Image.{read_of};
ghost use Rattle.saved.specs.Tests.{bits_right, no_doubles};
ghost use Rattle.saved.specs.Verdict.{heads_of, verdict_of};

use crate::{Kind, Layout, read, tests};
use state::Refusal;

// Does each field's head stand at its place?
#[tactic(auto, unfolding(crate::specs::Verdict::heads_of))]
fn heads(src: &[u8; 22039]) -> bool
    ensures { result ≡ heads_of src.now }
{
    fields::has_head(src, 0, 1, 40)
        & fields::has_head(src, 43, 2, 32)
        & fields::has_head(src, 78, 3, 448)
        & fields::has_head(src, 529, 4, 5120)
        & fields::has_head(src, 5652, 5, 16384)
}

// Is no bit set that the layout has as zero, is the pointer at most 55, and is each use code an order?
fn bits_right(src: &[u8; 22039]) -> bool
    ensures { result ≡ bits_right (read_of src.now) }
{
    tests::registers_own(read::registers_at(src), read::pair_at(src))
        & tests::all_own(Layout::Entries, src, 81, 112)
        & tests::all_own(Layout::Sets, src, 532, 1280)
        & tests::all_orders(src, 532, 256)
}

// Are no two valid lines of a set of one tag, and no two valid PATC entries of one page and space?
fn no_doubles(src: &[u8; 22039]) -> bool
    ensures { result ≡ no_doubles (read_of src.now) }
{
    tests::sets_apart(src, 532, 256) & tests::all_apart(Kind::Entry, src, 81, 8, 56)
}

// The first refusal that applies to an image.
#[tactic(auto, unfolding(crate::specs::Verdict::verdict_of))]
pub fn verdict(src: &[u8]) -> Result<(), Refusal>
    ensures { number_in result ≡ verdict_of src.now }
{
    let Some(src) = src.as_array() else {
        return Err(Refusal::ImageLength);
    };
    if !heads(src) {
        return Err(Refusal::ImageHeads);
    }
    if !bits_right(src) {
        return Err(Refusal::ImageBits);
    }
    if !no_doubles(src) {
        return Err(Refusal::ImageDoubles);
    }
    Ok(())
}
