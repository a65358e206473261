// A morning's frames at once: document 02, No. 2. Up to 64 frames of one setting lie end to end, with areas, maps and places for results to match.
// Each is heard as `hear` does, with the record that the one before it left.
ghost use Rattle.std.specs.Prelude.{◌≡◌, [], length};
ghost use Rattle.frame.specs.Frame.{receive_outcome};
ghost use Rattle.link.specs.Replay.{numbers_of, result_of, replay_number, replay_refusal};
ghost use Rattle.link.specs.Replay.Checks.{ReplayChecked};
ghost use Rattle.link.specs.Promises.{Replays};

use crate::hearing::{Heard, hear};
use frame::numbers::{number_of, received_of, word_number};
use frame::{Framing, ReceiveError, Received, is_allowed};
use record::Record;
use word::Figures;

// Why all frames are refused before any is read.
#[derive(Clone, Copy, Debug, PartialEq, Eq)]
pub enum ReplayError {
    BadSetting,
    BadLength,
}

// Puts e, f and bits of each word one after the other.
fn put_figures(figures: [Figures; 16], place: &mut [u16])
    requires { length place.old ≡ 48 }
    ensures { place.new ≡ numbers_of figures }
{
    for (w, found) in figures.iter().enumerate() {
        place[3 * w] = found.errors;
        place[3 * w + 1] = found.marked;
        place[3 * w + 2] = found.bits;
    }
}

// Puts what a frame was answered into its place: its number, word, sequence number and back, and then its words' figures.
fn put_result(answer: Result<Received, ReceiveError>, place: &mut [u16])
    requires { length place.old ≡ 52 }
    ensures { place.new ≡ result_of (receive_outcome answer [] []) }
{
    let numbers = received_of(answer);
    place[0] = u16::from(number_of(answer));
    place[1] = u16::from(word_number(answer));
    place[2] = numbers.sequence;
    place[3] = numbers.back;
    put_figures(numbers.figures, &mut place[4..52]);
}

// Whether the frames can be heard. More slots than 64 frames hold come before a total that does not fit. The sizes are written out: a framing's own
// methods ask something of it, and stay in `frame`.
fn check_replay(
    f: Framing,
    slots: &[u8],
    marks: &[u8],
    areas: &[u8],
    maps: &[u8],
    results: &[u16],
) -> Result<(), ReplayError>
    ensures { replay_number result ≡ replay_refusal f slots.now marks.now areas.now maps.now results.now }
{
    if !is_allowed(f) {
        return Err(ReplayError::BadSetting);
    }
    let size = f.n * f.depth;
    if 64 * size < slots.len() {
        return Err(ReplayError::BadSetting);
    }
    let frames = slots.len() / size;
    if slots.len() != frames * size
        || marks.len() != slots.len()
        || areas.len() != frames * (f.depth * (f.n - f.r))
        || maps.len() != slots.len()
        || results.len() != frames * 52
    {
        return Err(ReplayError::BadLength);
    }
    Ok(())
}

// Hears frames that have passed the checks, one after the other. A refused one does not stop the rest.
fn hear_all(
    before: Record,
    f: Framing,
    slots: &[u8],
    marks: &[u8],
    areas: &mut [u8],
    maps: &mut [u8],
    results: &mut [u16],
) -> Heard<Result<usize, ReplayError>>
    requires { ReplayChecked f slots.now marks.now areas.old maps.old results.old }
    ensures { Replays before f slots.now marks.now areas.old maps.old results.old result.answer result.next areas.new maps.new results.new }
{
    let size = f.n * f.depth;
    let room = f.depth * (f.n - f.r);
    let frames = slots.len() / size;
    let mut next = before;
    for i in 0..frames {
        let s = i * size;
        let a = i * room;
        let area = &mut areas[a..a + room];
        let map = &mut maps[s..s + size];
        let heard = hear(next, f, &slots[s..s + size], &marks[s..s + size], area, map);
        next = heard.next;
        let place = &mut results[i * 52..i * 52 + 52];
        put_result(heard.answer, place);
    }
    Heard {
        next,
        answer: Ok(frames),
    }
}

// Hears up to 64 frames that lie end to end, each with the record that the one before it left, and answers how many. Where the whole call is
// refused, nothing is touched. All that is lent lies end to end, since C lends it so.
pub fn replay(
    before: Record,
    f: Framing,
    slots: &[u8],
    marks: &[u8],
    areas: &mut [u8],
    maps: &mut [u8],
    results: &mut [u16],
) -> Heard<Result<usize, ReplayError>>
    ensures { Replays before f slots.now marks.now areas.old maps.old results.old result.answer result.next areas.new maps.new results.new }
{
    match check_replay(f, slots, marks, areas, maps, results) {
        Ok(()) => hear_all(before, f, slots, marks, areas, maps, results),
        Err(reason) => Heard {
            next: before,
            answer: Err(reason),
        },
    }
}

// The same over a lent record, which is updated where it stands. Both calls stay, since callers and README name both.
pub fn replay_in(
    lent: &mut Record,
    f: Framing,
    slots: &[u8],
    marks: &[u8],
    areas: &mut [u8],
    maps: &mut [u8],
    results: &mut [u16],
) -> Result<usize, ReplayError>
    ensures { Replays lent.old f slots.now marks.now areas.old maps.old results.old result lent.new areas.new maps.new results.new }
{
    let heard = replay(*lent, f, slots, marks, areas, maps, results);
    *lent = heard.next;
    heard.answer
}
