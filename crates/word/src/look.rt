// The first look at a received word, before anything is copied or written: how many places are marked, and what the word leaves of its
// message's check symbols. Most words leave nothing, and are answered after it.
ghost use Rattle.std.specs.Prelude.{◌≤◌, take};
ghost use Rattle.std.specs.Fn.{FnOnceReturnsAt};
ghost use Rattle.checks.specs.Checks.{Checks};
ghost use Rattle.checks.specs.Prepared.{ChecksBy};
ghost use Rattle.word.specs.Setting.{message_size};
ghost use Rattle.word.specs.Refusals.{Checked};
ghost use Rattle.word.specs.Looking.{Looked, Tabled};

use crate::count::{count_marks, figures};
use crate::{Figures, Setting};
use buffers::all_below;
use checks::left::{left_over, padded};
use checks::register::{Tables, check_symbols, check_symbols_by};

// What a look tells: a word is lost where it has more marks than check symbols, clean where it leaves nothing over, and else damaged.
#[derive(Clone, Copy)]
pub enum Look {
    Lost,
    Clean(Figures),
    Damaged { marked: usize, rest: [u8; 16] },
}

// Both looks below. `checks_of` makes the check symbols of the message: by tables that are lent, or by the look's own. That it does is asked
// here, and shown by the two looks: they ask what a caller knows of its word and its tables.
#[tactic(auto, using(crate::specs::Setting::in_limits))]
pub fn look_with<F: FnOnce(&[u8]) -> [u8; 16]>(
    s: Setting,
    received: &[u8],
    marks: &[u8],
    checks_of: F,
) -> Look
    requires checked { Checked s marks.now received.now }
    requires callable { F.IsAlwaysCallable checks_of }
    requires given { let message = take (message_size s) received.now in (c : _) → FnOnceReturnsAt F.FnOnce checks_of message c → Checks s.m s.b s.r message c }
    ensures { Looked s marks.now received.now result }
{
    let f = count_marks(marks);
    if s.r < f {
        return Look::Lost;
    }
    let k = s.n - s.r;
    let checks = checks_of(&received[..k]);
    let rest = left_over(checks, padded(&received[k..]));
    if all_below(&rest, 1) {
        return Look::Clean(figures(0, f, 0));
    }
    Look::Damaged { marked: f, rest }
}

// A look at a word that has passed the checks, by check symbols that are made for it alone. `Checked` ties a setting to two lent slices, so
// it is asked: a struct of the three would be made for this look alone.
pub fn look_at(s: Setting, received: &[u8], marks: &[u8]) -> Look
    requires { Checked s marks.now received.now }
    ensures { Looked s marks.now received.now result }
{
    let own_checks = |message: &[u8]| -> [u8; 16]
        requires { (s.b ≤ 1) × (s.r ≤ 16) }
        ensures { Checks s.m s.b s.r message.now result }
    { check_symbols(s.m, s.b, s.r, message) };
    look_with(s, received, marks, own_checks)
}

// The same by tables that were made before.
pub fn look_by(s: Setting, tables: &Tables, received: &[u8], marks: &[u8]) -> Look
    requires { Checked s marks.now received.now × Tabled s tables.now }
    ensures { Looked s marks.now received.now result }
{
    let by_tables = |message: &[u8]| -> [u8; 16]
        ensures { ChecksBy s.r tables.entry.now.low tables.entry.now.high message.now result }
    { check_symbols_by(s.r, tables, message) };
    look_with(s, received, marks, by_tables)
}
