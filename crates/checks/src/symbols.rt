// Symbols that a register takes in where they stand: end to end, or apart from each other. Each kind reads four at once in its own way.
ghost use Rattle.std.specs.Prelude.{◌≡◌, ◌+◌, ◌<◌, ◌≤◌, List, ℕ, length};
ghost use Rattle.checks.specs.Spaced.{Within, spaced};
ghost use Rattle.checks.specs.Symbols.{One, Four};

use packed::bytes::{four_apart, four_at, wide};

// Symbols in their order.
pub trait Symbols: Copy {
    ghost list: { Self → List ℕ };

    fn count(self) -> usize
        ensures { result ≡ length (list self) };

    // Symbol i.
    fn one(self, i: usize) -> u64
        requires { i < length (list self) }
        ensures { One (list self) i result };

    // The four from symbol i on, the first in the lowest byte.
    fn four(self, i: usize) -> u64
        requires { i + 4 ≤ length (list self) }
        ensures { Four (list self) i result };
}

// Symbols end to end.
#[derive(Clone, Copy)]
pub struct Together<'a> {
    pub symbols: &'a [u8],
}

impl<'a> Symbols for Together<'a> {
    ghost list = { λ s. s.symbols.now };

    fn count(self) -> usize {
        self.symbols.len()
    }

    fn one(self, i: usize) -> u64 {
        wide(self.symbols[i])
    }

    fn four(self, i: usize) -> u64 {
        four_at(self.symbols, i)
    }
}

// n symbols that stand `step` apart in the slots, from the one at `first` on.
#[derive(Clone, Copy)]
pub struct Apart<'a> {
    pub slots: &'a [u8],
    pub step: usize,
    pub first: usize,
    pub n: usize,
    pub ghost within: { Within step first n (length slots.now) },
}

impl<'a> Symbols for Apart<'a> {
    ghost list = { λ s. spaced s.step s.first s.n s.slots.now };

    fn count(self) -> usize {
        self.n
    }

    fn one(self, i: usize) -> u64 {
        wide(self.slots[i * self.step + self.first])
    }

    fn four(self, i: usize) -> u64 {
        four_apart(self.slots, i * self.step + self.first, self.step)
    }
}
