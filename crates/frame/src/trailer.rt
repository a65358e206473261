// The message area and its trailer: document 01, section Block interleaver and frame. Zeros, the payload, and in the last four bytes how far
// back it goes and the sequence number.
ghost use Rattle.std.specs.Prelude.{◌≡◌, ℕ, ◌+◌, ◌<◌, ◌≤◌, length};
ghost use Rattle.algebra.specs.Tests.{at};
ghost use Rattle.algebra.specs.Lists.{Copied};
ghost use Rattle.frame.specs.Frame.{trailer, two_at, area_byte, area_sent, trailer_good};
ghost use Rattle.frame.specs.Promises.{HandsBack};

use crate::setting::{ReceiveError, Received};
use buffers::all_below;

// The trailer to be sent: how far back the payload goes, and the sequence number, each low byte first.
fn trailer_of(back: u16, sequence: u16) -> [u8; 4]
    ensures { result ≡ trailer back sequence }
{
    let [back_low, back_high] = back.to_le_bytes();
    let [sequence_low, sequence_high] = sequence.to_le_bytes();
    [back_low, back_high, sequence_low, sequence_high]
}

// Byte i of the area to be sent, whose last bytes are this trailer.
#[tactic(auto, using(crate::specs::Frame::Trailer::sent_zero, crate::specs::Frame::Trailer::sent_payload, crate::specs::Frame::Trailer::sent_trailer))]
fn area_at(payload: &[u8], tail: &[u8; 4], size: usize, i: usize) -> u8
    requires { (length payload.now + 4 ≤ size) × (i < size) }
    ensures { (sequence : ℕ) → tail.now ≡ trailer (length payload.now) sequence → result ≡ at (area_sent size payload.now sequence) i }
{
    let end = size - 4;
    let start = end - payload.len();
    if i < start {
        0
    } else if i < end {
        payload[i - start]
    } else {
        tail[i - end]
    }
}

// Fills the message of a word with the area's bytes from `start` on.
pub fn fill_message(payload: &[u8], sequence: u16, size: usize, start: usize, message: &mut [u8])
    requires { (length payload.now + 4 ≤ size) × (size ≤ 65535) × (start + length message.old ≤ size) }
    ensures { Copied (length message.old) (area_byte (area_sent size payload.now sequence) start) message.new }
{
    let tail = trailer_of(payload.len() as u16, sequence);
    for (i, byte) in message.iter_mut().enumerate() {
        *byte = area_at(payload, &tail, size, start + i);
    }
}

// The number of 16 bits at i, low byte first.
pub fn two_at(area: &[u8], i: usize) -> u16
    requires { i + 1 < length area.now }
    ensures { result ≡ two_at area.now i }
{
    u16::from_le_bytes([area[i], area[i + 1]])
}

// Whether the payload that the trailer tells of lies within the area, with nothing but zeros before it.
#[tactic(auto, using(crate::specs::Frame::Trailer::good_long, crate::specs::Frame::Trailer::good_within, crate::specs::Frame::Trailer::zeros_below))]
pub fn is_good(area: &[u8]) -> bool
    requires { 4 ≤ length area.now }
    ensures { result ≡ trailer_good (length area.now) area.now }
{
    let room = area.len() - 4;
    let back = usize::from(two_at(area, room));
    back <= room && all_below(&area[..room - back], 1)
}

// The payload of an accepted frame, as that part of the area itself: the `back` bytes that end four before its end. The part is empty
// where the frame was refused, and where an area has not so many bytes.
#[tactic(auto, using(crate::specs::Frame::Trailer::payload_short, crate::specs::Frame::Trailer::payload_there), unfolding(crate::specs::Frame::payload_of))]
pub fn payload<'a>(area: &'a [u8], answer: Result<Received, ReceiveError>) -> &'a [u8]
    ensures { HandsBack area.now answer result.now }
{
    let Ok(received) = answer else {
        return &area[0..0];
    };
    let n = area.len();
    let back = usize::from(received.back);
    if n < back + 4 {
        return &area[0..0];
    }
    let end = n - 4;
    &area[end - back..end]
}
