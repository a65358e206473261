// Plain work on lent buffers, which the crates above share: to fill one, to copy or join, and to look at every byte.
#![tactic(auto)]

ghost use Rattle.std.specs.Prelude.{◌≡◌, ◌++◌, ◌+◌, ◌≤◌, length, take, replicate};
ghost use Rattle.algebra.specs.Tests.{below};

// Whether every symbol is below q. The largest is taken, with no early way out, so that the loop can run on many bytes at once. Where q is
// above every byte there is nothing to look at.
pub fn all_below(s: &[u8], q: usize) -> bool
    ensures { result ≡ below q s.now }
{
    if s.is_empty() || 255 < q {
        return true;
    }
    let mut most: u8 = 0;
    for x in s {
        most = most.max(*x);
    }
    usize::from(most) < q
}

// Every byte of the buffer becomes the value.
pub fn fill(buffer: &mut [u8], value: u8)
    ensures { buffer.new ≡ replicate (length buffer.old) value }
{
    buffer.fill(value);
}

// Fills the target with the front of the source. Byte by byte, since the library's `copy_from_slice` also moves what overlaps, so that the
// archive for C would need `memmove` from outside. Two lent buffers never overlap, and a loop over them needs no more than `memcpy`.
pub fn copy(source: &[u8], target: &mut [u8])
    requires { length target.old ≤ length source.now }
    ensures { target.new ≡ take (length target.old) source.now }
{
    for i in 0..target.len() {
        target[i] = source[i];
    }
}

// Fills the target with the front of two lists that stand one behind the other; the first is not longer than the target.
pub fn join(first: &[u8], second: &[u8], target: &mut [u8])
    requires { (length first.now ≤ length target.old) × (length target.old ≤ length first.now + length second.now) }
    ensures { target.new ≡ take (length target.old) (first.now ++ second.now) }
{
    let (front, back) = target.split_at_mut(first.len());
    copy(first, front);
    copy(second, back);
}

// An array of one value. A call of its own keeps the array out of its callers' proofs.
pub fn filled<T: Copy, const N: usize>(value: T) -> [T; N]
    ensures { result ≡ replicate N value }
{
    [value; N]
}
