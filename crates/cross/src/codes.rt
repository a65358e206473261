// The two codes of a cross line: their settings, and what its receiver makes of an inner and of an outer word.
ghost use Rattle.std.specs.Prelude.{◌≡◌, length};
ghost use Rattle.algebra.specs.Refusal.{if_zero};
ghost use Rattle.word.specs.Answers.{number_of};
ghost use Rattle.cross.specs.Cross.{outer_code, inner_code, passed_on, mark_of, map_of, frame_outcome, settled};

use crate::position::NoMessage;
use buffers::{copy, filled};
use word::{DecodeError, Figures, Setting, decode_part};

// 24 bytes and 4 check bytes. Each code is a setting with a name of its own, as the paper has them.
pub fn outer_code() -> Setting
    ensures { result ≡ outer_code }
{
    Setting {
        m: 8,
        n: 28,
        r: 4,
        b: 0,
    }
}

// 28 bytes and 4 check bytes.
pub fn inner_code() -> Setting
    ensures { result ≡ inner_code }
{
    Setting {
        m: 8,
        n: 32,
        r: 4,
        b: 0,
    }
}

// The mark of the bytes that a word passes on: 1 where it is refused. Which refusal it was
// goes no further. It is a match of the answer, as its promise is of the answer's number.
fn mark_of(answer: Result<Figures, DecodeError>) -> u8
    ensures { result ≡ if_zero (number_of answer) 0 1 }
{
    match answer {
        Ok(_) => 0,
        Err(_) => 1,
    }
}

// The 28 bytes that an inner word passes on, and the mark of each: corrected and 0, or where the word is refused as received and 1.
// Its check bytes are dropped. The map gets 1 at each of the 32 places where the word was changed, and 0 elsewhere; it is all 0 where the
// word is refused.
pub fn open_inner(word: &[u8], bytes: &mut [u8], map: &mut [u8]) -> u8
    requires { (length word.now ≡ 32) × (length bytes.old ≡ 28) × (length map.old ≡ 32) }
    ensures { (result ≡ mark_of word.now) × (bytes.new ≡ passed_on word.now) × (map.new ≡ map_of word.now) }
{
    copy(&word[0..28], bytes);
    let marks: [u8; 32] = filled(0);
    mark_of(decode_part(inner_code(), word, &marks, bytes, map))
}

// What becomes of the outer word that is due at a position: nothing for the first 108 frames, and the message bytes stay as they were; zeros
// where the word is refused; else its message and figures. The frame is taken all the same.
// The outer word's own map goes no further: its bytes came with 28 frames, and no place of it is a place of this frame.
#[tactic(auto, using(crate::specs::Codes::settled_early))]
pub fn settle(
    position: usize,
    bytes: &[u8],
    marks: &[u8],
    message: &mut [u8],
) -> Result<Figures, NoMessage>
    requires { length message.old ≡ 24 }
    ensures { frame_outcome result message.new ≡ settled position bytes.now marks.now message.old }
{
    if position < 108 {
        return Err(NoMessage::NotYet);
    }
    let mut places: [u8; 28] = filled(0);
    match decode_part(outer_code(), bytes, marks, message, &mut places) {
        Ok(figures) => Ok(figures),
        Err(_) => {
            message.fill(0);
            Err(NoMessage::BeyondReach)
        }
    }
}
