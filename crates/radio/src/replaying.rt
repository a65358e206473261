// A morning's frames for C: the record after them is shown as `records` shows it, and what was lent is left as `replay` leaves it.
ghost use Rattle.std.specs.Prelude.{◌≡◌};
ghost use Rattle.radio.specs.Replaying.{replayed_seen, both_replayed_seen, Replay};

use crate::frames::FrameSetting;
use crate::records::{LentRecord, record_seen};
use link::numbers::{frames_heard, replay_number};
use link::{ReplayError, replay};

// What a replay answers: the whole call's number, and how many frames were heard.
#[repr(C)]
#[derive(Clone, Copy)]
pub struct ReplayedAnswer {
    pub answer: u8,
    pub frames: usize,
}

// The record after the last frame, and the answer. The header has it as a struct of its own.
#[repr(C)]
#[derive(Clone, Copy)]
pub struct ReplayAnswer {
    pub next: LentRecord,
    pub answer: ReplayedAnswer,
}

// The answer as C sees it.
impl From<Result<usize, ReplayError>> for ReplayedAnswer {
    ghost from_gives = { λ t r. r ≡ replayed_seen t };

    fn from(t: Result<usize, ReplayError>) -> ReplayedAnswer {
        ReplayedAnswer {
            answer: replay_number(t),
            frames: frames_heard(t),
        }
    }
}

// Hears up to 64 frames that lie end to end, each as `yaxo_hear` does, with the record that the one before it left.
#[unsafe(no_mangle)]
pub extern "C" fn yaxo_replay(
    before: LentRecord,
    framing: FrameSetting,
    slots: &[u8],
    marks: &[u8],
    areas: &mut [u8],
    maps: &mut [u8],
    results: &mut [u16],
) -> ReplayAnswer
    ensures { Replay before framing slots.now marks.now areas.old maps.old results.old result areas.new maps.new results.new }
{
    let t = replay(
        before.into(),
        framing.into(),
        slots,
        marks,
        areas,
        maps,
        results,
    );
    let next = record_seen(before, t.next);
    let answer = t.answer.into();
    ReplayAnswer { next, answer }
}

// The same over a lent record, which is updated where it stands. C has both calls.
#[unsafe(no_mangle)]
pub extern "C" fn yaxo_replay_in(
    lent: &mut LentRecord,
    framing: FrameSetting,
    slots: &[u8],
    marks: &[u8],
    areas: &mut [u8],
    maps: &mut [u8],
    results: &mut [u16],
) -> ReplayedAnswer
    ensures { Replay lent.old framing slots.now marks.now areas.old maps.old results.old (both_replayed_seen lent.new result) areas.new maps.new results.new }
{
    let t = yaxo_replay(*lent, framing, slots, marks, areas, maps, results);
    *lent = t.next;
    t.answer
}
