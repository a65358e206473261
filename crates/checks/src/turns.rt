// The register: what a message leaves when it is divided by the generator, four symbols a turn. A table says whether one word holds it or two,
// and symbols how four of them are read; each pair of the two has a body of its own.
ghost use Rattle.std.specs.Prelude.{◌≡◌, ◌*◌, ◌/◌, ◌%◌, ◌<◌, length};
ghost use Rattle.std.specs.Int.Bits.{bit_xor};
ghost use Rattle.algebra.specs.Bytes.{whole};
ghost use Rattle.checks.specs.Rows.{both, after_symbol, after_symbols};
ghost use Rattle.checks.specs.Division.{Divided};
ghost use Rattle.checks.specs.OneWord.{Alone};

use crate::rows::Table;
use crate::symbols::Symbols;
use packed::pair::{Pair, moved, moved_four, none, sum};

// The two rows of the symbol f that has k more behind it in its turn.
fn rows<T: Table>(table: &T, k: usize, f: usize) -> Pair
    requires { (k < 4) × (f < 256) }
    ensures number { whole result.low result.high ≡ both (T.low table.now) (T.high table.now) k f }
    ensures upper { Alone T.alone result.high }
{
    sum(table.row(32 * k + f % 16), table.row(32 * k + 16 + f / 16))
}

// The register after one symbol more.
pub fn fed<T: Table>(table: &T, p: Pair, symbol: u64) -> Pair
    requires { symbol < 256 }
    ensures number { whole result.low result.high ≡ after_symbol (T.low table.now) (T.high table.now) p.low p.high symbol }
    ensures upper { Alone T.alone p.high → Alone T.alone result.high }
{
    let f = (symbol ^ p.low % 256) as usize;
    sum(moved(p), rows(table, 0, f))
}

// The register after four symbols more, the first in the lowest byte of s.
pub fn fed_four<T: Table>(table: &T, p: Pair, s: u64) -> Pair
    ensures number { whole result.low result.high ≡ after_symbols (T.low table.now) (T.high table.now) p.low p.high s }
    ensures upper { Alone T.alone p.high → Alone T.alone result.high }
{
    let x = (s ^ p.low % 4294967296) as usize;
    let a = sum(
        rows(table, 0, x / 16777216 % 256),
        rows(table, 1, x / 65536 % 256),
    );
    let b = sum(rows(table, 2, x / 256 % 256), rows(table, 3, x % 256));
    sum(moved_four(p), sum(a, b))
}

// What the symbols leave in the register that divides by the polynomial whose rows the table holds.
pub fn remainder<T: Table, S: Symbols>(table: &T, symbols: S) -> Pair
    ensures divided { Divided (T.low table.now) (T.high table.now) (S.list symbols) (length (S.list symbols)) result.low result.high }
    ensures upper { Alone T.alone result.high }
{
    let mut p = none();
    let turns = symbols.count() / 4;
    for turn in 0..turns {
        p = fed_four(table, p, symbols.four(4 * turn));
    }
    for i in 4 * turns..symbols.count() {
        p = fed(table, p, symbols.one(i));
    }
    p
}
