// The product without a table: a bit of one factor at a time. It has no branch but on m, so a loop over it becomes vector code; the
// varying factor goes first. The inverse needs no table either: it is a power, made of products and, at m = 8, of one power that goes term by term.
ghost use Rattle.std.specs.Prelude.{◌≡◌, ◌%◌, ◌^◌, ◌<◌};
ghost use Rattle.field.specs.Field.{modulus};
ghost use Rattle.field.specs.Raised.{raised};
ghost use Rattle.field.specs.Elements.{wide, prod};

// The m low bits of x.
pub fn low(m: usize, x: u8) -> u8
    ensures { result ≡ x % 2 ^ wide m }
{
    if m == 3 {
        return x % 8;
    }
    x
}

// The product of a, which is 2, and x: moved up by one place, and the polynomial's rest added where a term fell out.
pub fn double(m: usize, x: u8) -> u8
    ensures { result ≡ prod m 2 x }
{
    if m == 3 {
        return x % 4 * 2 ^ x / 4 % 2 * 3;
    }
    x % 128 * 2 ^ x / 128 * 29
}

// The product: for each term of x, y moved up by the term's place is added. The field stands in the type, so that each of the two makes a
// straight body of its own.
fn by_terms<const M: usize>(x: u8, y: u8) -> u8
    ensures { result ≡ prod M x y }
{
    let mut a = low(M, x);
    let mut b = low(M, y);
    let mut sum: u8 = 0;
    for term in 0..8u8 {
        sum = sum ^ a % 2 * b;
        a = a / 2;
        b = double(M, b);
    }
    sum
}

// The product in the field that m names.
pub fn times(m: usize, x: u8, y: u8) -> u8
    ensures { result ≡ prod m x y }
{
    if m == 3 {
        return by_terms::<3>(x, y);
    }
    by_terms::<8>(x, y)
}

// The sixteenth power of x at m = 8: that of a sum is the sum of those of its terms, which are a^0, a^16, .., a^112.
fn sixteenth(x: u8) -> u8
    ensures { result ≡ raised 8 (modulus 8) x 16 }
{
    x % 2
        ^ x / 2 % 2 * 76
        ^ x / 4 % 2 * 157
        ^ x / 8 % 2 * 70
        ^ x / 16 % 2 * 95
        ^ x / 32 % 2 * 253
        ^ x / 64 % 2 * 217
        ^ x / 128 * 129
}

// The inverse of the element x, and 0 where x is 0. It is the power by 2^m - 2, since that by 2^m - 1 is 1; each name has its exponent.
pub fn inverse_at(m: usize, x: u8) -> u8
    ensures { (result < 2 ^ wide m) × (0 < x % 2 ^ wide m → prod m x result ≡ 1) }
{
    let x2 = times(m, x, x);
    let x4 = times(m, x2, x2);
    let x6 = times(m, x2, x4);
    if m == 3 {
        return x6;
    }
    let x14 = times(m, x6, times(m, x4, x4));
    let x15 = times(m, x, x14);
    times(m, x14, sixteenth(x15))
}
