// The polynomial that a code's register divides by.
ghost use Rattle.std.specs.Prelude.{◌≡◌, ◌≤◌};
ghost use Rattle.algebra.specs.Bytes.{bytes};
ghost use Rattle.checks.specs.Checks.{divisor};

use crate::roots::first_root;
use field::shifts::double;
use packed::factor::{factor_of, scaled};
use packed::pair::{Pair, down, none, sum};

// The monic polynomial whose roots are the r powers of a from a^b on: the first r symbols, highest first, without the leading 1. Those of
// EN 300 421 and of the cross line are stored, since most calls want one of them.
pub fn generator(m: usize, b: usize, r: usize) -> Pair
    requires { (b ≤ 1) × (r ≤ 16) }
    ensures { bytes result.low result.high ≡ divisor m b r }
{
    match (m, b, r) {
        (8, 0, 16) => Pair {
            low: 0x081ed144bd680d3b,
            high: 0x3b243262e52941a3,
        },
        (8, 0, 4) => Pair {
            low: 0x4078360f,
            high: 0,
        },
        _ => grown(m, b, r),
    }
}

// The same by one root after the other. The doubles of a root are the roots to come.
fn grown(m: usize, b: usize, r: usize) -> Pair
    requires { (b ≤ 1) × (r ≤ 16) }
    ensures { bytes result.low result.high ≡ divisor m b r }
{
    let mut g = none();
    let mut f = factor_of(m, first_root(m, b));
    for j in 0..r {
        g = sum(g, down(scaled(f, g), f[0]));
        f = [f[1], f[2], f[3], f[4], f[5], f[6], f[7], double(m, f[7])];
    }
    g
}
