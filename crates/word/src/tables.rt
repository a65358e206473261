// The same calls for many words of one setting, as a frame's: the tables of the check symbols are made once and lent to each word, and the
// caller has made all checks. What these calls ask is in their `requires`. They stay beside `encode`, `decode_part` and `is_clean`, which make their
// checks and tables themselves. A lent map or part is as long as the setting says: that ties slices to a setting, and is asked where they are lent.
ghost use Rattle.std.specs.Prelude.{◌≡◌, ◌≤◌, length};
ghost use Rattle.word.specs.Setting.{message_size};
ghost use Rattle.word.specs.Code.{encoded};
ghost use Rattle.word.specs.Refusals.{MessageChecked, Checked};
ghost use Rattle.word.specs.Codeword.{is_codeword};
ghost use Rattle.word.specs.Looking.{Tabled, Stands, standing};
ghost use Rattle.word.specs.Promises.{DecodesPart};

use crate::look::look_by;
use crate::{DecodeError, Figures, Setting, to_part};
use buffers::join;
use checks::left::agree;
use checks::register;
pub use checks::register::Tables;

// Makes the tables of a setting. Setting and tables stay two: a struct of both would have each call ask that the struct be of its own setting,
// where it asks `Tabled` now.
pub fn prepare(s: Setting, tables: &mut Tables)
    requires { (s.b ≤ 1) × (s.r ≤ 16) }
    ensures { Tabled s tables.new }
{
    register::prepare(s.m, s.b, s.r, tables);
}

// `encode`, by tables.
#[tactic(auto, using(crate::specs::Setting::in_limits))]
pub fn encode_by(s: Setting, tables: &Tables, message: &[u8], word: &mut [u8])
    requires { MessageChecked s message.now word.old × Tabled s tables.now }
    ensures { word.new ≡ encoded s message.now }
{
    let checks = register::check_symbols_by(s.r, tables, message);
    join(message, &checks, word);
}

// `decode_part`, by tables.
pub fn decode_part_by(
    s: Setting,
    tables: &Tables,
    received: &[u8],
    marks: &[u8],
    part: &mut [u8],
    map: &mut [u8],
) -> Result<Figures, DecodeError>
    requires { Checked s marks.now received.now × Tabled s tables.now × (length part.old ≡ message_size s) × (length map.old ≡ s.n) }
    ensures { DecodesPart s received.now marks.now part.old map.old result part.new map.new }
{
    let seen = look_by(s, tables, received, marks);
    to_part(s, seen, received, marks, part, map)
}

// `is_clean`, by tables, of a word whose symbols stand `step` apart in the slots, from the one at `first` on. They are read where they stand.
#[tactic(auto, using(crate::specs::Setting::in_limits))]
pub fn is_clean_by(s: Setting, tables: &Tables, slots: &[u8], step: usize, first: usize) -> bool
    requires { Stands s step first slots.now × Tabled s tables.now }
    ensures { result ≡ is_codeword s (standing s step first slots.now) }
{
    let k = s.n - s.r;
    let checks = register::check_symbols_of(s.r, tables, slots, step, first, k);
    agree(checks, s.r, slots, step, first, k)
}
