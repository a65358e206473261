// Calls of the word code held to the answer that the paper gives.
ghost use Rattle.std.specs.Prelude.{◌≤◌, length};

use word::{DecodeError, Figures, InputError, Setting};

// What the paper says of a received word: e, f and bits, or why it is refused.
pub type Outcome = Result<Figures, DecodeError>;

// How many symbols of a word, of its marks and of the room for its map a call is lent.
#[derive(Clone, Copy)]
pub struct Lent {
    pub word: usize,
    pub marks: usize,
    pub map: usize,
}

// A setting of the word code, in the paper's order.
pub fn setting(m: usize, n: usize, r: usize, b: usize) -> Setting {
    Setting { m, n, r, b }
}

// Accepted, with e, f and bits.
pub fn done(errors: u16, marked: u16, bits: u16) -> Outcome {
    Ok(Figures {
        errors,
        marked,
        bits,
    })
}

// Refused, since no codeword is near enough.
pub fn lost() -> Outcome {
    Err(DecodeError::BeyondReach)
}

// Whether encoding answers this and leaves these symbols in the word.
pub fn encodes(
    s: Setting,
    message: &[u8],
    symbols: &mut [u8],
    wanted: Result<(), InputError>,
    after: &[u8],
) -> bool {
    word::encode(s, message, symbols) == wanted && &*symbols == after
}

// Whether decoding has this outcome, and leaves these symbols in the word and this map.
pub fn decodes(
    s: Setting,
    symbols: &mut [u8],
    marks: &[u8],
    map: &mut [u8],
    wanted: Outcome,
    after: &[u8],
    changed: &[u8],
) -> bool {
    word::decode(s, symbols, marks, map) == wanted && &*symbols == after && &*map == changed
}

// Whether decoding into a part has this outcome, and leaves these symbols in the part and this map.
pub fn decodes_part(
    s: Setting,
    symbols: &[u8],
    marks: &[u8],
    part: &mut [u8],
    map: &mut [u8],
    wanted: Outcome,
    after: &[u8],
    changed: &[u8],
) -> bool {
    word::decode_part(s, symbols, marks, part, map) == wanted && &*part == after && &*map == changed
}

// Whether the first k symbols of a message are refused so by a check for the first n of a word, which then stays as it was.
pub fn refuses_message(
    s: Setting,
    message: &[u8],
    k: usize,
    symbols: &mut [u8],
    n: usize,
    why: InputError,
    after: &[u8],
) -> bool
    requires { (k ≤ length message.now) × (n ≤ length symbols.old) × (n ≤ length after.now) }
{
    encodes(s, &message[..k], &mut symbols[..n], Err(why), &after[..n])
}

// Whether the first symbols of a word, with the first of its marks, are refused so by a check: the map then stays as the word does.
pub fn refuses_word(
    s: Setting,
    lent: Lent,
    symbols: &mut [u8],
    marks: &[u8],
    why: InputError,
    after: &[u8],
) -> bool
    requires { (lent.word ≤ length symbols.old) × (lent.marks ≤ length marks.now) × (lent.map ≤ 256) × (lent.word ≤ length after.now) }
{
    let mut map = [9u8; 256];
    let old = [9u8; 256];
    decodes(
        s,
        &mut symbols[..lent.word],
        &marks[..lent.marks],
        &mut map[..lent.map],
        Err(why.into()),
        &after[..lent.word],
        &old[..lent.map],
    )
}
