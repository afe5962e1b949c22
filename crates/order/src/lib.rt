// The use code of a set: which of its four lines was used later than which.
#![tactic(auto)]

mod tables;

ghost use Rattle.std.specs.Prelude.{◌≡◌, ◌<◌};
ghost use Rattle.words.specs.Words.{bits_of};
ghost use Rattle.order.specs.Order.{ordered, used_of, earliest_of, is_order};

// A use code. Of any other bits of its word none counts.
#[derive(Clone, Copy)]
pub struct UseOrder {
    pub code: u32,
}

// The use code of a word: its bits 5-0.
impl From<u32> for UseOrder {
    ghost from_gives = { λ word order. order ≡ ordered (bits_of word 5 0) };

    fn from(word: u32) -> UseOrder {
        UseOrder {
            code: words::bits(word, 5, 0),
        }
    }
}

impl UseOrder {
    // The order once `line` is used.
    pub fn used(self, line: usize) -> UseOrder
        requires { line < 4 }
        ensures { result ≡ ordered (used_of (bits_of self.code 5 0) line) }
    {
        let code = words::bits(self.code, 5, 0) as usize;
        UseOrder {
            code: u32::from(tables::next(code * 4 + line)),
        }
    }

    // The line used earlier than all others, else line 0.
    pub fn victim(self) -> usize
        ensures { (result ≡ earliest_of (bits_of self.code 5 0)) × (result < 4) }
    {
        let code = words::bits(self.code, 5, 0) as usize;
        usize::from(tables::earliest(code))
    }

    // Do the six bits order the four lines?
    pub fn is_order(self) -> bool
        ensures { result ≡ is_order (bits_of self.code 5 0) }
    {
        let code = words::bits(self.code, 5, 0) as usize;
        tables::is_order(code)
    }
}
