// Is it clean? Document 02, No. 9: whether every word of a frame is a codeword as received, and which is the first that is not. The slots are read
// where they are: no word is copied or corrected, nothing is counted, and the trailer is not looked at.
ghost use Rattle.std.specs.Prelude.{◌≡◌};
ghost use Rattle.word.specs.Looking.{Tabled};
ghost use Rattle.frame.specs.Frame.{word_setting};
ghost use Rattle.frame.specs.Promises.{IsClean};
ghost use Rattle.frame.specs.Checks.{CleanChecked, CleanTold};
ghost use Rattle.frame.specs.Asking.{FirstUnclean};

use crate::setting::{Framing, is_allowed};
use word::tables::{Tables, is_clean_by, prepare};

// Why a frame is not asked about.
#[derive(Clone, Copy, Debug, PartialEq, Eq)]
pub enum CleanError {
    BadSetting,
    BadLength,
}

// Whether a frame can be asked about. The setting comes first: within its limits the number of slots fits.
#[tactic(auto, using(crate::specs::Checks::told))]
fn check_clean(f: Framing, slots: &[u8]) -> Result<(), CleanError>
    ensures { CleanTold f slots.now result }
{
    if !is_allowed(f) {
        return Err(CleanError::BadSetting);
    }
    if slots.len() != f.slots() {
        return Err(CleanError::BadLength);
    }
    Ok(())
}

// The first word that is no codeword, or none where all are. No word behind it is looked at.
fn first_unclean(f: Framing, tables: &Tables, slots: &[u8]) -> Option<u8>
    requires { CleanChecked f slots.now × Tabled (word_setting f) tables.now }
    ensures { FirstUnclean f slots.now result }
{
    for w in 0..f.depth {
        if !is_clean_by(f.words(), tables, slots, f.depth, w) {
            return Some(w as u8);
        }
    }
    None
}

// The first word of a received frame that is no codeword, or none where every word is one. Refused 1 for the setting, also where the area has no
// room for a trailer, and 2 for the number of slots.
#[tactic(auto, using(crate::specs::Asking::clean_refused, crate::specs::Asking::clean_told, std::proofs::lemmas::Result::err_from_is_err_and))]
pub fn is_clean(f: Framing, slots: &[u8]) -> Result<Option<u8>, CleanError>
    ensures { IsClean f slots.now result }
{
    check_clean(f, slots)?;
    let mut tables = Tables::none();
    prepare(f.words(), &mut tables);
    Ok(first_unclean(f, &tables, slots))
}
