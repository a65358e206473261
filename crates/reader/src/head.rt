// The input's head: its first four bytes are the frame's setting, and tell how much of the input is wanted.
ghost use Rattle.std.specs.Prelude.{◌≡◌};
ghost use Rattle.algebra.specs.Tests.{at};
ghost use Rattle.reader.specs.Head.{framing_of, wanted_of};

use link::{Framing, is_allowed};

// The byte at place i as a size; 0 past the end.
fn byte_at(input: &[u8], i: usize) -> usize
    ensures { result ≡ at input.now i }
{
    input.get(i).map_or(0, |x| usize::from(*x))
}

// The setting in the first four bytes: depth, n, r and b. A byte that is missing counts as 0: whoever tells a short input from a bad
// setting looks at its length first.
pub fn framing(input: &[u8]) -> Framing
    ensures { result ≡ framing_of input.now }
{
    Framing {
        depth: byte_at(input, 0),
        n: byte_at(input, 1),
        r: byte_at(input, 2),
        b: byte_at(input, 3),
    }
}

// How many bytes of the input decide the answer: the setting, and where it stands the slots and one byte more, which tells a longer input
// from one that ends there.
pub fn wanted(head: &[u8]) -> usize
    ensures { result ≡ wanted_of head.now }
{
    if head.len() < 4 {
        return 4;
    }
    let f = framing(head);
    if !is_allowed(f) {
        return 4;
    }
    4 + f.n * f.depth + 1
}
