// Sending a frame: document 01, section Block interleaver and frame. A payload and its sequence number become one frame of interleaved
// words.
ghost use Rattle.std.specs.Prelude.{◌≡◌};
ghost use Rattle.word.specs.Looking.{Tabled};
ghost use Rattle.frame.specs.Frame.{word_setting, slots_sent};
ghost use Rattle.frame.specs.Promises.{Sends};
ghost use Rattle.frame.specs.Checks.{SendTold};
ghost use Rattle.frame.specs.Sending.{SendGiven};

use crate::setting::{Framing, SendError, is_allowed};
use crate::trailer::fill_message;
use buffers::filled;
use interleave::slots::put_word;
use word::tables::{Tables, encode_by, prepare};

// Whether a payload can be sent into these slots. The setting comes first: within its limits the area's size fits.
#[tactic(auto, using(crate::specs::Checks::told))]
fn check_send(f: Framing, payload: &[u8], slots: &[u8]) -> Result<(), SendError>
    ensures { SendTold f payload.now slots.now result }
{
    if !is_allowed(f) {
        return Err(SendError::BadSetting);
    }
    if slots.len() != f.slots() {
        return Err(SendError::BadLength);
    }
    if f.area() - 4 < payload.len() {
        return Err(SendError::LongPayload);
    }
    Ok(())
}

// Encodes each word's part of the area by the tables of all words, and puts it into its slots. The two buffers are work space for a message
// and its word.
fn send_words(
    f: Framing,
    tables: &Tables,
    payload: &[u8],
    sequence: u16,
    message: &mut [u8],
    word: &mut [u8],
    slots: &mut [u8],
)
    requires { SendGiven f payload.now message.old word.old slots.old × Tabled (word_setting f) tables.now }
    ensures { slots.new ≡ slots_sent f payload.now sequence }
{
    let k = f.message();
    let size = f.area();
    for w in 0..f.depth {
        fill_message(payload, sequence, size, w * k, message);
        encode_by(f.words(), tables, message, word);
        put_word(f.depth, w, word, slots);
    }
}

// Sends a payload of at most A - 4 bytes with its sequence number: fills the slots, of which there are n * depth.
// Any refusal leaves the slots as they were.
#[tactic(auto, using(crate::specs::Sending::send_refused, crate::specs::Sending::send_done, std::proofs::lemmas::Result::err_from_is_err_and))]
pub fn send(f: Framing, payload: &[u8], sequence: u16, slots: &mut [u8]) -> Result<(), SendError>
    ensures { Sends f payload.now sequence slots.old result slots.new }
{
    check_send(f, payload, slots)?;
    let mut tables = Tables::none();
    prepare(f.words(), &mut tables);
    let mut message: [u8; 255] = filled(0);
    let mut word: [u8; 255] = filled(0);
    send_words(
        f,
        &tables,
        payload,
        sequence,
        &mut message[..f.message()],
        &mut word[..f.n],
        slots,
    );
    Ok(())
}
