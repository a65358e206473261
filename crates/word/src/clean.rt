// Is it clean? Document 02, No. 9: whether a received word is a codeword as it stands. Nothing is corrected, written or counted, and there are
// no marks.
ghost use Rattle.word.specs.Promises.{IsClean};

use crate::limits::check_word;
use crate::tables::{Tables, is_clean_by, prepare};
use crate::{InputError, Setting};

// Whether a received word is a codeword. Refused 1 for the setting, 2 for the length, 3 for a symbol of 2^m or more.
pub fn is_clean(s: Setting, word: &[u8]) -> Result<bool, InputError>
    ensures { IsClean s word.now result }
{
    check_word(s, word)?;
    let mut tables = Tables::none();
    prepare(s, &mut tables);
    Ok(is_clean_by(s, &tables, word, 1, 0))
}
