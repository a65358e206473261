// The word code: document 01, section Word code. A word of n symbols is encoded from its k message symbols, and a received one is corrected
// in place, or its message handed to a part of an area, or only asked whether it is a codeword. Every call checks its own input, in the
// paper's order. What each promises is defined in specs/, in the paper's order.
#![tactic(auto)]

pub mod clean;
pub mod correct;
pub mod count;
pub mod limits;
pub mod look;
pub mod map;
pub mod numbers;
pub mod tables;

ghost use Rattle.std.specs.Prelude.{◌≡◌, length};
ghost use Rattle.word.specs.Answers.{decode_error};
ghost use Rattle.word.specs.Promises.{Encodes, Decodes, DecodesPart};
ghost use Rattle.word.specs.Setting.{message_size};
ghost use Rattle.word.specs.Looking.{Measured, Looked};
ghost use Rattle.word.specs.Correcting.{Answered};

use buffers::{copy, fill, filled, join};
use checks::register::check_symbols;
pub use clean::is_clean;
use correct::correct_word;
pub use limits::is_allowed;
use limits::{check_message, check_part, check_received};
use look::{Look, look_at};
use map::note_changes;

// What a word code is set to: m bits a symbol, n symbols a word, r check symbols, and b, the power of a at which its zeros start.
#[derive(Clone, Copy)]
pub struct Setting {
    pub m: usize,
    pub n: usize,
    pub r: usize,
    pub b: usize,
}

// What an accepted word was found to have: unmarked wrong symbols, marked ones, and changed bits. It goes to C as it is.
#[repr(C)]
#[derive(Clone, Copy, Debug, Default, PartialEq, Eq)]
pub struct Figures {
    pub errors: u16,
    pub marked: u16,
    pub bits: u16,
}

// Why what a call is lent is refused before any work. The paper's numbers are 1 to 3, in this order.
#[derive(Clone, Copy, Debug, PartialEq, Eq)]
pub enum InputError {
    BadSetting,
    BadLength,
    BadSymbol,
}

// Why decoding refuses a word. The paper's numbers are 1 to 4, in this order.
#[derive(Clone, Copy, Debug, PartialEq, Eq)]
pub enum DecodeError {
    BadSetting,
    BadLength,
    BadSymbol,
    BeyondReach,
}

impl From<InputError> for DecodeError {
    ghost from_gives = { λ e d. d ≡ decode_error e };

    fn from(e: InputError) -> DecodeError {
        match e {
            InputError::BadSetting => DecodeError::BadSetting,
            InputError::BadLength => DecodeError::BadLength,
            InputError::BadSymbol => DecodeError::BadSymbol,
        }
    }
}

// Puts the k message symbols and the check symbols that make them a codeword into the word of n symbols.
// Refused 1 for the setting, 2 for a length, 3 for a message symbol of 2^m or more; the word is then left as it was.
pub fn encode(s: Setting, message: &[u8], word: &mut [u8]) -> Result<(), InputError>
    ensures { Encodes s message.now word.old result word.new }
{
    check_message(s, message, word)?;
    let checks = check_symbols(s.m, s.b, s.r, message);
    join(message, &checks, word);
    Ok(())
}

// What a damaged word is answered: its correction is put at the front of the work space and its map is written, where there is one.
#[tactic(auto, using(crate::specs::Setting::in_limits))]
fn answer(
    s: Setting,
    f: usize,
    rest: [u8; 16],
    received: &[u8],
    marks: &[u8],
    work: &mut [u8],
    map: &mut [u8],
) -> Result<Figures, DecodeError>
    requires { Measured s marks.now received.now f rest × (length work.old ≡ 255) × (length map.old ≡ s.n) }
    ensures { Answered s received.now marks.now map.old work.new result map.new }
{
    let n = s.n;
    let figures = correct_word(s, f, rest, received, marks, &mut work[..n]).ok_or(
        DecodeError::BeyondReach,
    )?;
    note_changes(received, work, map);
    Ok(figures)
}

// Corrects a word that has been looked at where it stands. Nothing but the map is written unless it is damaged.
#[tactic(auto, using(crate::specs::Setting::in_limits))]
fn in_place(
    s: Setting,
    seen: Look,
    word: &mut [u8],
    marks: &[u8],
    map: &mut [u8],
) -> Result<Figures, DecodeError>
    requires { Looked s marks.now word.old seen × (length map.old ≡ s.n) }
    ensures { Decodes s word.old marks.now map.old result word.new map.new }
{
    fill(map, 0);
    match seen {
        Look::Lost => Err(DecodeError::BeyondReach),
        Look::Clean(figures) => Ok(figures),
        Look::Damaged { marked, rest } => {
            let mut work: [u8; 255] = filled(0);
            let figures = answer(s, marked, rest, word, marks, &mut work, map)?;
            copy(&work, word);
            Ok(figures)
        }
    }
}

// The same with the message put into a part of its own, and the received word only read. A function of its own, since `in_place` reads what it
// writes, and leaves a clean word uncopied.
#[tactic(auto, using(crate::specs::Setting::in_limits))]
fn to_part(
    s: Setting,
    seen: Look,
    received: &[u8],
    marks: &[u8],
    part: &mut [u8],
    map: &mut [u8],
) -> Result<Figures, DecodeError>
    requires { Looked s marks.now received.now seen × (length part.old ≡ message_size s) × (length map.old ≡ s.n) }
    ensures { DecodesPart s received.now marks.now part.old map.old result part.new map.new }
{
    fill(map, 0);
    match seen {
        Look::Lost => Err(DecodeError::BeyondReach),
        Look::Clean(figures) => {
            copy(received, part);
            Ok(figures)
        }
        Look::Damaged { marked, rest } => {
            let mut work: [u8; 255] = filled(0);
            let figures = answer(s, marked, rest, received, marks, &mut work, map)?;
            copy(&work, part);
            Ok(figures)
        }
    }
}

// Corrects a received word where it stands to the codeword with 2e + f ≤ r; its marks are only read. The map gets 1 where the word was
// changed, and 0 elsewhere.
// Refused 1 for the setting, 2 for a length, 3 for a symbol of 2^m or more or a mark above 1, and 4 where no codeword qualifies; the
// word is then left as it was. The map is all 0 under 4, and left as it was under 1, 2 and 3.
pub fn decode(
    s: Setting,
    word: &mut [u8],
    marks: &[u8],
    map: &mut [u8],
) -> Result<Figures, DecodeError>
    ensures { Decodes s word.old marks.now map.old result word.new map.new }
{
    check_received(s, word, marks, map)?;
    let seen = look_at(s, word, marks);
    in_place(s, seen, word, marks, map)
}

// The same with the received word only read: the k message symbols of the corrected word go to the lent part. Refused as `decode`
// is, and 2 for a part that has not k symbols; the part is then left as it was.
pub fn decode_part(
    s: Setting,
    received: &[u8],
    marks: &[u8],
    part: &mut [u8],
    map: &mut [u8],
) -> Result<Figures, DecodeError>
    ensures { DecodesPart s received.now marks.now part.old map.old result part.new map.new }
{
    check_part(s, received, marks, part, map)?;
    let seen = look_at(s, received, marks);
    to_part(s, seen, received, marks, part, map)
}
