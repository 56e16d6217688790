ghost use Rattle.std.specs.Prelude.{◌≡◌, ◌+◌, ◌^◌, ◌<◌};

use std::marker::Model;

/// Gives the numbers from 1 on, each once. Contracts see how many were drawn.
#[derive(Debug, Drop)]
pub struct Counter {
    drawn: u128,
}

impl Model for Counter {
    ghost use Rattle.std.specs.Prelude.{ℕ};

    ghost Value = { ℕ };

    ghost view = { λ counter. counter.drawn };
}

impl Counter {
    /// A counter that has given no number.
    pub fn new() -> Counter
        ensures { result ≡ 0 }
    {
        Counter { drawn: 0 }
    }

    /// Draws the next number: 1 first, and then each greater by 1 than the one before.
    pub fn next(&mut self) -> u128
        requires { self.old < 2 ^ 100 }
        ensures value { result ≡ self.old + 1 }
        ensures drawn { self.new ≡ self.old + 1 }
    {
        let number = self.drawn + 1;
        self.drawn = number;
        number
    }
}
