// The checks that every call makes before it looks at a word: document 01's refusals 1, 2 and 3, in that order.
ghost use Rattle.std.specs.Prelude.{◌≡◌, ◌^◌};
ghost use Rattle.field.specs.Elements.{wide};
ghost use Rattle.word.specs.Setting.{allowed};
ghost use Rattle.word.specs.Answers.{encoded_number, encode_refusal, decode_refusal, part_refusal};
ghost use Rattle.word.specs.Clean.{clean_refusal};

use crate::{InputError, Setting};
use buffers::all_below;
use field::is_field;

// How many symbols there are: 2^m.
pub fn symbols_of(m: usize) -> usize
    ensures { result ≡ 2 ^ wide m }
{
    if m == 3 { 8 } else { 256 }
}

// Whether a setting keeps the limits.
pub fn is_allowed(s: Setting) -> bool
    ensures { result ≡ allowed s }
{
    is_field(s.m) && 2 <= s.r && s.r <= 16 && s.r < s.n && s.n < symbols_of(s.m) && s.b <= 1
}

// Checks a message, and the room for the word that it is to become.
pub fn check_message(s: Setting, message: &[u8], word: &[u8]) -> Result<(), InputError>
    ensures { encoded_number result ≡ encode_refusal s message.now word.now }
{
    if !is_allowed(s) {
        return Err(InputError::BadSetting);
    }
    if message.len() != s.n - s.r || word.len() != s.n {
        return Err(InputError::BadLength);
    }
    if !all_below(message, symbols_of(s.m)) {
        return Err(InputError::BadSymbol);
    }
    Ok(())
}

// Checks a received word, its marks, and the room for its map.
pub fn check_received(
    s: Setting,
    received: &[u8],
    marks: &[u8],
    map: &[u8],
) -> Result<(), InputError>
    ensures { encoded_number result ≡ decode_refusal s received.now marks.now map.now }
{
    if !is_allowed(s) {
        return Err(InputError::BadSetting);
    }
    if received.len() != s.n || marks.len() != s.n || map.len() != s.n {
        return Err(InputError::BadLength);
    }
    if !all_below(received, symbols_of(s.m)) || !all_below(marks, 2) {
        return Err(InputError::BadSymbol);
    }
    Ok(())
}

// The same where the message goes to a part: its length stands before the symbols.
pub fn check_part(
    s: Setting,
    received: &[u8],
    marks: &[u8],
    part: &[u8],
    map: &[u8],
) -> Result<(), InputError>
    ensures { encoded_number result ≡ part_refusal s received.now marks.now part.now map.now }
{
    if !is_allowed(s) {
        return Err(InputError::BadSetting);
    }
    if part.len() != s.n - s.r {
        return Err(InputError::BadLength);
    }
    check_received(s, received, marks, map)
}

// Checks a word that is only asked about.
pub fn check_word(s: Setting, word: &[u8]) -> Result<(), InputError>
    ensures { encoded_number result ≡ clean_refusal s word.now }
{
    if !is_allowed(s) {
        return Err(InputError::BadSetting);
    }
    if word.len() != s.n {
        return Err(InputError::BadLength);
    }
    if !all_below(word, symbols_of(s.m)) {
        return Err(InputError::BadSymbol);
    }
    Ok(())
}
