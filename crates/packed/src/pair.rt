// Symbol k of sixteen is byte k of two words, the first in the lowest byte of `low`. Sums and moves.
ghost use Rattle.std.specs.Prelude.{◌≡◌, ◌/◌};
ghost use Rattle.std.specs.Int.Bits.{bit_xor};
ghost use Rattle.algebra.specs.Bytes.{whole};
ghost use Rattle.packed.specs.Moves.{Down};
ghost use Rattle.packed.specs.Doubles.{Doubled, DoubledPair};

use crate::bytes::wide;

#[derive(Clone, Copy)]
pub struct Pair {
    pub low: u64,
    pub high: u64,
}

// Sixteen zeros.
pub fn none() -> Pair
    ensures { (result.low ≡ 0) × (result.high ≡ 0) }
{
    Pair { low: 0, high: 0 }
}

// The sums, symbol by symbol.
pub fn sum(p: Pair, q: Pair) -> Pair
    ensures number { whole result.low result.high ≡ bit_xor (whole p.low p.high) (whole q.low q.high) }
    ensures upper { result.high ≡ bit_xor p.high q.high }
{
    Pair {
        low: p.low ^ q.low,
        high: p.high ^ q.high,
    }
}

// Symbol k + 1 goes to place k, and 0 to the last.
pub fn moved(p: Pair) -> Pair
    ensures number { whole result.low result.high ≡ whole p.low p.high / 256 }
    ensures upper { result.high ≡ p.high / 256 }
{
    Pair {
        low: p.low / 256 + p.high % 256 * 72057594037927936,
        high: p.high / 256,
    }
}

// Symbol k + 4 goes to place k, and 0 to the last four. It stands beside `moved`, as two lines of constants that a number of places would only hide.
pub fn moved_four(p: Pair) -> Pair
    ensures number { whole result.low result.high ≡ whole p.low p.high / 4294967296 }
    ensures upper { result.high ≡ p.high / 4294967296 }
{
    Pair {
        low: p.low / 4294967296 + p.high % 4294967296 * 4294967296,
        high: p.high / 4294967296,
    }
}

// Symbol k goes to place k + 1, and e to the first; the last is dropped.
pub fn down(p: Pair, e: u8) -> Pair
    ensures { Down p.low p.high e result.low result.high }
{
    Pair {
        low: wide(e) + 256 * (p.low % 72057594037927936),
        high: p.low / 72057594037927936 + 256 * (p.high % 72057594037927936),
    }
}

// The products of a, which is 2, and eight symbols, as `field::shifts::double` makes them of one. The masks keep what is moved in its own byte.
pub fn double_word(m: usize, x: u64) -> u64
    ensures each { Doubled m x result }
    ensures zero { x ≡ 0 → result ≡ 0 }
{
    if m == 3 {
        return (x & 0x0303030303030303) * 2 ^ (x / 4 & 0x0101010101010101) * 3;
    }
    (x & 0x7f7f7f7f7f7f7f7f) * 2 ^ (x / 128 & 0x0101010101010101) * 29
}

// The same of sixteen symbols.
pub fn doubled(m: usize, p: Pair) -> Pair
    ensures each { DoubledPair m p.low p.high result.low result.high }
    ensures zero { p.high ≡ 0 → result.high ≡ 0 }
{
    Pair {
        low: double_word(m, p.low),
        high: double_word(m, p.high),
    }
}
