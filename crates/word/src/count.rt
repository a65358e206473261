// Document 01, "Word code": the figures of a decoded word. They count the unmarked places that changed, the marks, and the bits that changed.
// They are inner calls of `correct` and `look`, whose callers check every setting first; what they ask is in their `requires`.
ghost use Rattle.std.specs.Prelude.{◌≡◌, ◌*◌, ◌≤◌, length, T};
ghost use Rattle.std.specs.Int.Count.{ones};
ghost use Rattle.algebra.specs.Xor.{◌⊕◌};
ghost use Rattle.algebra.specs.Tests.{at, total, below};
ghost use Rattle.word.specs.Figures.{error_of, errors, bits};

use crate::Figures;

// 1 where a place is unmarked and its two symbols differ, else 0.
fn error_at(mark: u8, x: u8, y: u8) -> usize
    ensures { (result ≡ error_of mark x y) × (result ≤ 1) }
{
    usize::from(mark == 0 && x != y)
}

// The unmarked places where two words differ.
pub fn count_errors(marks: &[u8], received: &[u8], word: &[u8]) -> usize
    requires { (length received.now ≤ 255) × (length marks.now ≡ length received.now) × (length word.now ≡ length received.now) }
    ensures { (result ≡ errors marks.now received.now word.now) × (result ≤ length received.now) }
{
    let mut e: usize = 0;
    for i in 0..received.len() {
        e += error_at(marks[i], received[i], word[i]);
    }
    e
}

// How many places are marked, where each mark is 0 or 1. No word has more than 255, so they are counted in bytes, many at once.
pub fn count_marks(marks: &[u8]) -> usize
    requires { (length marks.now ≤ 255) × T (below 2 marks.now) }
    ensures { (result ≡ total (length marks.now) (at marks.now)) × (result ≤ length marks.now) }
{
    let mut f: u8 = 0;
    for mark in marks {
        f += *mark;
    }
    usize::from(f)
}

// How many bits of two symbols differ.
fn bits_at(x: u8, y: u8) -> usize
    ensures { (result ≡ ones (x ⊕ y)) × (result ≤ 8) }
{
    (x ^ y).count_ones() as usize
}

// How many bits of two words differ.
pub fn count_bits(received: &[u8], word: &[u8]) -> usize
    requires { (length received.now ≤ 255) × (length word.now ≡ length received.now) }
    ensures { (result ≡ bits received.now word.now) × (result ≤ 8 * length received.now) }
{
    let mut sum: usize = 0;
    for (x, y) in received.iter().zip(word) {
        sum += bits_at(*x, *y);
    }
    sum
}

// The figures of a word with e wrong symbols, f marks and so many changed bits.
pub fn figures(e: usize, f: usize, bits: usize) -> Figures
    requires { (e ≤ 255) × (f ≤ 255) × (bits ≤ 8 * 255) }
    ensures { result ≡ record { errors = e; marked = f; bits = bits } }
{
    Figures {
        errors: e as u16,
        marked: f as u16,
        bits: bits as u16,
    }
}
