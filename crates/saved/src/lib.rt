// What a saved image is, edition 1: which bits it holds of each word, what it reads as, and whether it is taken.
#![tactic(auto)]

pub mod read;
mod tests;
pub mod verdict;

ghost use Rattle.std.specs.Prelude.{◌≡◌};
ghost use Rattle.saved.specs.Chip.{own_word};

use state::own;

// How the words of a list are laid out, and so which bits of each are its own.
#[derive(Clone, Copy)]
pub enum Layout {
    // Whole words: ports and cache data.
    Whole,
    // A page word, then its frame word.
    Entries,
    // Four tag words, then the set's use code.
    Sets,
}

// What is not to stand twice.
#[derive(Clone, Copy)]
pub enum Kind {
    // A valid line of a set, by its tag.
    Line,
    // A valid PATC entry, by its page and space.
    Entry,
}

// The own bits of word `i` of a list laid out so.
#[tactic(auto, unfolding(crate::specs::Chip::own_word))]
pub fn own_word(layout: Layout, i: usize, w: u32) -> u32
    ensures { result ≡ own_word layout i w }
{
    match layout {
        Layout::Whole => w,
        Layout::Entries => if i % 2 == 0 {
            own::tag(w)
        } else {
            own::frame(w)
        },
        Layout::Sets => if i % 5 < 4 { own::tag(w) } else { own::code(w) },
    }
}
