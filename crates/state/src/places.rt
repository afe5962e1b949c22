// A place of the cache: line `number` of set `set` stands at 4 x set + number, below 1024.
ghost use Rattle.std.specs.Prelude.{◌≡◌, ◌+◌, ◌*◌, ◌/◌, ◌%◌, ◌<◌};

use std::marker::Model;

#[derive(Clone, Copy)]
pub struct Place {
    index: usize,
}

impl Model for Place {
    ghost use Rattle.std.specs.Prelude.{ℕ, ◌<◌};

    ghost Value = { ℕ };

    ghost view = { λ p. p.index };

    ghost invariant = { λ p. p.index < 1024 };

    ghost inverse = { λ n. record { index = n } };
}

impl Place {
    // Line `number` of a set.
    pub fn of(set: usize, number: usize) -> Place
        requires { (set < 256) × (number < 4) }
        ensures { result ≡ set * 4 + number }
    {
        Place {
            index: set * 4 + number,
        }
    }

    // The place of a number.
    pub fn at(index: usize) -> Place
        requires { index < 1024 }
        ensures { result ≡ index }
    {
        Place { index }
    }

    // .. and its number.
    pub fn index(self) -> usize
        ensures { (result ≡ self) × (result < 1024) }
    {
        self.index
    }

    pub fn set(self) -> usize
        ensures { (result ≡ self / 4) × (result < 256) }
    {
        self.index / 4
    }

    pub fn number(self) -> usize
        ensures { (result ≡ self % 4) × (result < 4) }
    {
        self.index % 4
    }
}
