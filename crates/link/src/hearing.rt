// The receiver's whole call: document 01, sections Block interleaver and frame, and Receiver's record. A frame is received, and what it
// was answered is noted in the record, so that no caller notes another number.
ghost use Rattle.link.specs.Promises.{Hears};

use frame::numbers::{number_of, received_of};
use frame::{Framing, ReceiveError, Received, receive};
use record::{Record, note};

// What hearing gives: the record after it, and what was answered.
#[derive(Clone, Copy)]
pub struct Heard<A> {
    pub next: Record,
    pub answer: A,
}

// Receives a frame into the lent area and map as `receive` does, and notes its number and its sequence number in the record. Its four slices stay
// apart, as README and C name them; where two copies come at once each is a `MastCopy`.
pub fn hear(
    before: Record,
    f: Framing,
    slots: &[u8],
    marks: &[u8],
    area: &mut [u8],
    map: &mut [u8],
) -> Heard<Result<Received, ReceiveError>>
    ensures { Hears before f slots.now marks.now area.old map.old result.answer result.next area.new map.new }
{
    let answer = receive(f, slots, marks, area, map);
    let next = note(before, number_of(answer), received_of(answer).sequence);
    Heard { next, answer }
}

// The same over a lent record, which is updated where it stands. Both calls stay, since callers and README name both.
pub fn hear_in(
    lent: &mut Record,
    f: Framing,
    slots: &[u8],
    marks: &[u8],
    area: &mut [u8],
    map: &mut [u8],
) -> Result<Received, ReceiveError>
    ensures { Hears lent.old f slots.now marks.now area.old map.old result lent.new area.new map.new }
{
    let heard = hear(*lent, f, slots, marks, area, map);
    *lent = heard.next;
    heard.answer
}
