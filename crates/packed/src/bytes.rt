// Symbols put into words, and taken out again.
ghost use Rattle.std.specs.Prelude.{◌≡◌, ℕ, ◌+◌, ◌*◌, ◌≤◌, ◌<◌, length};
ghost use Rattle.algebra.specs.Tests.{at};
ghost use Rattle.algebra.specs.Bytes.{byte, whole, bytes};

use crate::pair::Pair;

// A symbol as the lowest byte of a word.
pub fn wide(x: u8) -> u64
    ensures { (result ≡ x) × (result < 256) }
{
    u64::from(x)
}

// Four symbols from the one at i on, the first in the lowest byte. Every symbol is a byte.
pub fn four_at(s: &[u8], i: usize) -> u64
    requires { i + 4 ≤ length s.now }
    ensures value { result ≡ at s.now i + at s.now (i + 1) * 256 + at s.now (i + 2) * 65536 + at s.now (i + 3) * 16777216 }
    ensures upper_bound { result < 4294967296 }
    ensures bytes { (j : ℕ) → at s.now j < 256 }
{
    four_apart(s, i, 1)
}

// The same of four symbols that stand `step` apart.
pub fn four_apart(s: &[u8], i: usize, step: usize) -> u64
    requires { i + 3 * step < length s.now }
    ensures value { result ≡ at s.now i + at s.now (i + step) * 256 + at s.now (i + 2 * step) * 65536 + at s.now (i + 3 * step) * 16777216 }
    ensures upper_bound { result < 4294967296 }
    ensures bytes { (j : ℕ) → at s.now j < 256 }
{
    wide(s[i])
        + wide(s[i + step]) * 256
        + wide(s[i + 2 * step]) * 65536
        + wide(s[i + 3 * step]) * 16777216
}

// Byte i of a word.
fn byte_of(x: u64, i: usize) -> u8
    requires { i < 8 }
    ensures { result ≡ byte x i }
{
    ((x >> (8 * i)) % 256) as u8
}

// Symbol i of sixteen.
fn symbol_of(p: Pair, i: usize) -> u8
    requires { i < 16 }
    ensures { result ≡ byte (whole p.low p.high) i }
{
    if i < 8 {
        return byte_of(p.low, i);
    }
    byte_of(p.high, i - 8)
}

// The sixteen symbols.
pub fn bytes_of(p: Pair) -> [u8; 16]
    ensures { result ≡ bytes p.low p.high }
{
    let mut out = [0u8; 16];
    for i in 0..16 {
        out[i] = symbol_of(p, i);
    }
    out
}
