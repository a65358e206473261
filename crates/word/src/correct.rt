// How a word is corrected: the codeword with 2e + f ≤ r is found by peeling (docs/ARCHITECTURE.md), or there is none.
ghost use Rattle.std.specs.Prelude.{◌≡◌, ◌≤◌, length};
ghost use Rattle.word.specs.Looking.{Measured};
ghost use Rattle.word.specs.Correcting.{Steps, Summed, Corrects};

use crate::count::{count_bits, count_errors, figures};
use crate::{Figures, Setting};
use buffers::copy;
use checks::syndrome::{all_zero, syndromes};
use decoder::correct::correct;
use decoder::kernel::kernel;
use decoder::locate::Places;
use decoder::peel::peel_all;

// Corrects every candidate place of a word with these power sums, f of whose places are marked, and gives the power sums that are left.
fn correct_places(s: Setting, marks: &[u8], f: usize, sums: [u8; 16], word: &mut [u8]) -> [u8; 16]
    requires { (s.n ≤ 255) × (s.r ≤ 16) × (s.b ≤ 1) × (f ≤ s.r) × (length marks.now ≡ s.n) × (length word.old ≡ s.n) }
    ensures { Steps s marks.now f sums word.old word.new result }
{
    let t = (s.r - f) / 2;
    let places = Places::of(s.m, s.n);
    let peeled = peel_all(&places, marks, sums);
    let v = kernel(s.m, t, peeled);
    let flags = places.candidates(marks, &v, t + 1);
    correct(&places, s.b, &flags, sums, word)
}

// Corrects the received word in `out`, which is no codeword, to the one with 2e + f ≤ r, where there is one, and gives its figures.
#[tactic(auto, using(crate::specs::Setting::in_limits))]
fn correct_errors(
    s: Setting,
    received: &[u8],
    marks: &[u8],
    f: usize,
    sums: [u8; 16],
    out: &mut [u8],
) -> Option<Figures>
    requires { Summed s marks.now received.now f sums × (out.old ≡ received.now) }
    ensures { Corrects s marks.now received.now out.new result }
{
    let rest = correct_places(s, marks, f, sums, out);
    if !all_zero(s.m, rest, s.r) {
        return None;
    }
    let e = count_errors(marks, received, out);
    if s.r < 2 * e + f {
        return None;
    }
    Some(figures(e, f, count_bits(received, out)))
}

// Puts the codeword with 2e + f ≤ r into `out`, where there is one, and gives its figures. The syndromes are taken of what the word leaves
// over, which has at most sixteen symbols.
#[tactic(auto, using(crate::specs::Setting::in_limits))]
pub fn correct_word(
    s: Setting,
    f: usize,
    rest: [u8; 16],
    received: &[u8],
    marks: &[u8],
    out: &mut [u8],
) -> Option<Figures>
    requires { Measured s marks.now received.now f rest × (length out.old ≡ s.n) }
    ensures { Corrects s marks.now received.now out.new result }
{
    copy(received, out);
    let r = s.r;
    let sums = syndromes(s.m, s.b, &rest[..r]);
    correct_errors(s, received, marks, f, sums, out)
}
