// Eight and sixteen products at once by one factor, without a table: a bit of every symbol at a time.
ghost use Rattle.std.specs.Prelude.{◌≡◌, ◌<◌, ◌*◌, ◌^◌};
ghost use Rattle.std.specs.Int.Bits.{bit_and};
ghost use Rattle.field.specs.Elements.{wide};
ghost use Rattle.packed.specs.Factors.{Factored, ByFactor, Scaled};

use crate::bytes::wide;
use crate::pair::Pair;
use field::shifts::double;

// A factor times 1, 2, 4, .., 128.
pub type Factor = [u8; 8];

// The products of the element x.
pub fn factor_of(m: usize, x: u8) -> Factor
    requires { x < 2 ^ wide m }
    ensures { Factored m x result }
{
    let mut f = [x; 8];
    for k in 1..8 {
        f[k] = double(m, f[k - 1]);
    }
    f
}

// The factor where x has a 1 in the lowest bit of a byte. Each byte of x & ones is 0 or 1, so that the product of numbers has no carry
// between bytes.
fn bits_by(x: u64, f: u8) -> u64
    ensures { (result ≡ bit_and x 72340172838076673 * f) × (f < 256) }
{
    (x & 0x0101010101010101) * wide(f)
}

// Eight products by one factor.
fn word_by(f: Factor, x: u64) -> u64
    ensures { ByFactor f x result }
{
    ((bits_by(x / 1, f[0]) ^ bits_by(x / 2, f[1])) ^ (bits_by(x / 4, f[2]) ^ bits_by(x / 8, f[3])))
        ^ ((bits_by(x / 16, f[4]) ^ bits_by(x / 32, f[5]))
            ^ (bits_by(x / 64, f[6]) ^ bits_by(x / 128, f[7])))
}

// Sixteen products by one factor.
pub fn scaled(f: Factor, p: Pair) -> Pair
    ensures { Scaled f p.low p.high result.low result.high }
{
    Pair {
        low: word_by(f, p.low),
        high: word_by(f, p.high),
    }
}
