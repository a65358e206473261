// The register's tables: the row that each digit of four bits leaves, for each of the four symbols of a turn. They are made on the stack of a
// call, by doubling; none is stored. The two halves of a row stand in two tables: in one the compiler would make vectors and pay for the moves.
ghost use Rattle.std.specs.Prelude.{◌≡◌, ◌+◌, ◌≤◌, length};
ghost use Rattle.algebra.specs.Bytes.{bytes};
ghost use Rattle.field.specs.Elements.{wide};
ghost use Rattle.checks.specs.Checks.{divisor};
ghost use Rattle.checks.specs.Starts.{Elements};
ghost use Rattle.checks.specs.Digits.{Twice};
ghost use Rattle.checks.specs.Tables.{Digits, Put, Stepping, Basis};
ghost use Rattle.checks.specs.Rows.{Rows};
ghost use Rattle.checks.specs.OneWord.{Alone, Unused, Enough};

use crate::generator::generator;
use crate::rows::{Bits, Table};
use crate::turns::fed;
use packed::pair::{Pair, doubled};

// The s rows from `from` on, summed with x, behind them.
fn twice(table: &mut [u64; 128], from: usize, s: usize, x: u64)
    requires { from + s + s ≤ 128 }
    ensures { Twice table.old table.new from s x }
{
    for v in 0..s {
        table[from + s + v] = table[from + v] ^ x;
    }
}

// The rows of the sixteen digits from those of four bits.
fn digit(table: &mut [u64; 128], from: usize, p: &[u64; 8], o: usize)
    requires { (from + 16 ≤ 128) × (o ≤ 4) }
    ensures { Digits table.old table.new from p.now o }
{
    table[from] = 0;
    twice(table, from, 1, p[o]);
    twice(table, from, 2, p[o + 1]);
    twice(table, from, 4, p[o + 2]);
    twice(table, from, 8, p[o + 3]);
}

// The rows of one part: those of its low digit, and then those of its high one.
pub fn put(table: &mut [u64; 128], from: usize, p: &[u64; 8])
    requires { from + 32 ≤ 128 }
    ensures { Put table.old table.new from p.now }
{
    digit(table, from, p, 0);
    digit(table, from + 16, p, 4);
}

// How many bits an element has.
pub fn width(m: usize) -> usize
    ensures { (result ≡ wide m) × (result ≤ 8) }
{
    if m == 3 {
        return 3;
    }
    8
}

// The rows of the first part's bits: the polynomial times 1, 2, 4, .. below 2^m.
fn first_bits<T: Table>(m: usize, g: Pair) -> Bits
    requires { Elements m (bytes g.low g.high) × Alone T.alone g.high }
    ensures basis { Basis m (bytes g.low g.high) 0 result.low result.high }
    ensures unused { Unused T.alone result.high }
{
    let mut bits = Bits {
        low: [0; 8],
        high: [0; 8],
    };
    let mut d = g;
    for i in 0..width(m) {
        T::set_bit(&mut bits, i, d);
        d = doubled(m, d);
    }
    bits
}

// The rows of the next part's bits: each is fed a zero.
fn step<T: Table>(table: &T, bits: &mut Bits)
    requires { Unused T.alone bits.old.high }
    ensures stepped { Stepping (T.low table.now) (T.high table.now) bits.old.low bits.old.high 8 bits.new.low bits.new.high }
    ensures unused { Unused T.alone bits.new.high }
{
    for i in 0..8 {
        let row = fed(table, T::bit(bits, i), 0);
        T::set_bit(bits, i, row);
    }
}

// The table of the code with the r roots from a^b on.
pub fn prepare<T: Table>(m: usize, b: usize, r: usize, table: &mut T)
    requires { (b ≤ 1) × (r ≤ 16) × Enough T.alone r }
    ensures { Rows 4 m (divisor m b r) (T.low table.new) (T.high table.new) }
{
    let mut bits = first_bits::<T>(m, generator(m, b, r));
    for part in 0..4 {
        table.put(32 * part, &bits);
        step(table, &mut bits);
    }
}
