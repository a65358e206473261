// The tables of rows that a register reads, and that are made before it does. One word holds the register and a row of at most eight check
// symbols: what would stand in a second word is zero, and nothing reads or writes it. More need two words, and so two tables.
ghost use Rattle.std.specs.Prelude.{◌≡◌, ◌+◌, ◌<◌, ◌≤◌, Bool, true, false, List, ℕ, set};
ghost use Rattle.algebra.specs.Bytes.{whole};
ghost use Rattle.algebra.specs.Tests.{at};
ghost use Rattle.checks.specs.Rows.{entry};
ghost use Rattle.checks.specs.Tables.{Put};
ghost use Rattle.checks.specs.OneWord.{none, Alone, Unused};

use crate::register::Tables;
use crate::tables::put;
use packed::pair::Pair;

// The rows of the eight bits of a symbol: the low and the high word of each.
#[derive(Clone, Copy)]
pub struct Bits {
    pub low: [u64; 8],
    pub high: [u64; 8],
}

// A table whose rows have one word or two.
pub trait Table {
    // The low words, the high words, and whether a row is its low word alone.
    ghost low: { Self → List ℕ };

    ghost high: { Self → List ℕ };

    ghost alone: { Bool };

    // Row j.
    fn row(&self, j: usize) -> Pair
        requires { j < 128 }
        ensures number { whole result.low result.high ≡ entry (low self.now) (high self.now) j }
        ensures upper { Alone alone result.high };

    // The 32 rows of a part, from those of its bits.
    fn put(&mut self, from: usize, bits: &Bits)
        requires { (from + 32 ≤ 128) × Unused alone bits.now.high }
        ensures lower { Put (low self.old) (low self.new) from bits.now.low }
        ensures upper { Put (high self.old) (high self.new) from bits.now.high };

    // The row of bit i.
    fn bit(bits: &Bits, i: usize) -> Pair
        requires { (i < 8) × Unused alone bits.now.high }
        ensures row { (result.low ≡ at bits.now.low i) × (result.high ≡ at bits.now.high i) }
        ensures upper { Alone alone result.high };

    // Bit i has this row now.
    fn set_bit(bits: &mut Bits, i: usize, row: Pair)
        requires { (i < 8) × Unused alone bits.old.high × Alone alone row.high }
        ensures lower { bits.new.low ≡ set bits.old.low i row.low }
        ensures upper { bits.new.high ≡ set bits.old.high i row.high };
}

// Rows of one word.
impl Table for [u64; 128] {
    ghost low = { λ table. table };

    ghost high = { λ _. none };

    ghost alone = { true };

    fn row(&self, j: usize) -> Pair {
        Pair {
            low: self[j],
            high: 0,
        }
    }

    fn put(&mut self, from: usize, bits: &Bits) {
        put(self, from, &bits.low);
    }

    fn bit(bits: &Bits, i: usize) -> Pair {
        Pair {
            low: bits.low[i],
            high: 0,
        }
    }

    fn set_bit(bits: &mut Bits, i: usize, row: Pair) {
        bits.low[i] = row.low;
    }
}

// Rows of two words.
impl Table for Tables {
    ghost low = { λ tables. tables.low };

    ghost high = { λ tables. tables.high };

    ghost alone = { false };

    fn row(&self, j: usize) -> Pair {
        Pair {
            low: self.low[j],
            high: self.high[j],
        }
    }

    fn put(&mut self, from: usize, bits: &Bits) {
        put(&mut self.low, from, &bits.low);
        put(&mut self.high, from, &bits.high);
    }

    fn bit(bits: &Bits, i: usize) -> Pair {
        Pair {
            low: bits.low[i],
            high: bits.high[i],
        }
    }

    fn set_bit(bits: &mut Bits, i: usize, row: Pair) {
        bits.low[i] = row.low;
        bits.high[i] = row.high;
    }
}
