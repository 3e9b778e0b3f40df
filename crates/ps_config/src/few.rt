//! A few numbers, which take no memory.
ghost use Rattle.std.specs.Prelude.{◌≡◌, ◌++◌, ◌∷◌, ◌<◌, ◌≤◌, [], length, take};
ghost use Rattle.ps_config.specs.Zeros.{AreZeroFrom};

use crate::config::MOST_THREADS;
use std::marker::Model;

/// At most as many numbers as a configuration has threads.
#[derive(Drop)]
pub struct Few {
    numbers: [u32; MOST_THREADS],
    count: usize,
}

impl Model for Few {
    ghost use Rattle.std.specs.Prelude.{◌≤◌, ℕ, List, take};
    ghost use Rattle.ps_config.specs.Zeros.{AreZeroFrom};
    ghost use Rattle.ps_config.specs.declared.config.TheConstants.{MOST_THREADS};

    ghost Value = { List ℕ };

    ghost view = { λ f. take f.count f.numbers };

    ghost invariant = { λ f. (f.count ≤ MOST_THREADS) × AreZeroFrom f.count f.numbers };
}

impl Few {
    /// No numbers.
    pub fn none() -> Few
        ensures { result ≡ [] }
    {
        Few {
            numbers: [0; MOST_THREADS],
            count: 0,
        }
    }

    /// How many there are.
    pub fn len(&self) -> usize
        ensures len { result ≡ length self.now }
        ensures few { result ≤ MOST_THREADS }
    {
        self.count
    }

    /// The numbers in their order.
    pub fn as_slice(&self) -> &[u32]
        ensures { result.now ≡ self.now }
    {
        &self.numbers[..self.count]
    }

    /// The same with one more at the end.
    pub fn with(&self, number: u32) -> Few
        requires { length self.now < MOST_THREADS }
        ensures { result ≡ self.now ++ number ∷ [] }
    {
        let mut numbers = self.numbers;
        numbers[self.count] = number;
        Few {
            numbers,
            count: self.count + 1,
        }
    }

    /// The same numbers.
    pub fn copied(&self) -> Few
        ensures { result ≡ self.now }
    {
        Few {
            numbers: self.numbers,
            count: self.count,
        }
    }

    /// The same with one more at the end where there is room, else the same.
    pub fn noted(&self, number: u32) -> Few
        ensures room { length self.now < MOST_THREADS → result ≡ self.now ++ number ∷ [] }
        ensures full { MOST_THREADS ≤ length self.now → result ≡ self.now }
    {
        if self.len() < MOST_THREADS {
            self.with(number)
        } else {
            self.copied()
        }
    }

    /// The numbers, and zeros beyond them.
    pub fn numbers(&self) -> [u32; MOST_THREADS]
        ensures first { take (length self.now) result ≡ self.now }
        ensures rest { AreZeroFrom (length self.now) result }
    {
        self.numbers
    }
}
