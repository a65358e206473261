// What a received word leaves of its message's check symbols. It is all zero where the word is one of the code, and else has the word's
// syndromes, in at most sixteen symbols.
ghost use Rattle.std.specs.Prelude.{◌≡◌, ◌+◌, ◌≤◌, length};
ghost use Rattle.algebra.specs.Lists.{Filled};
ghost use Rattle.checks.specs.Left.{Padded, left_at};
ghost use Rattle.checks.specs.Spaced.{Within, Agree};

// At most sixteen symbols with zeros behind them, so that what follows has a fixed length.
pub fn padded(symbols: &[u8]) -> [u8; 16]
    requires { length symbols.now ≤ 16 }
    ensures { Padded symbols.now (length symbols.now) result }
{
    let mut all = [0u8; 16];
    all[..symbols.len()].copy_from_slice(symbols);
    all
}

// The sums of the check symbols of a message and those that were received with it.
pub fn left_over(checks: [u8; 16], received: [u8; 16]) -> [u8; 16]
    ensures { Filled 16 (left_at checks received) 16 result }
{
    let mut rest = [0u8; 16];
    for i in 0..16 {
        rest[i] = checks[i] ^ received[i];
    }
    rest
}

// Whether the check symbols of k symbols are the r that stand behind these in the slots: then nothing is left over.
pub fn agree(checks: [u8; 16], r: usize, slots: &[u8], step: usize, first: usize, k: usize) -> bool
    requires { (r ≤ 16) × (k ≤ 255) × Within step first (k + r) (length slots.now) }
    ensures { Agree checks r slots.now step first k result }
{
    for j in 0..r {
        if checks[j] != slots[(k + j) * step + first] {
            return false;
        }
    }
    true
}
