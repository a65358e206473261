// The receiver's whole call for C: a frame's answer and the record after it are shown as `frames` and `records` show them.
ghost use Rattle.radio.specs.Hearing.{both_seen, Hear};

use crate::frames::{FrameAnswer, FrameSetting, frame_answer};
use crate::records::{LentRecord, record_seen};
use link::hear;

// The record after a frame, and what the frame was answered. The header has it as a struct of its own.
#[repr(C)]
#[derive(Clone, Copy)]
pub struct HeardAnswer {
    pub next: LentRecord,
    pub answer: FrameAnswer,
}

// The receiver's whole call: receives a frame as `yaxo_frame_receive` does, and notes what it was answered.
#[unsafe(no_mangle)]
pub extern "C" fn yaxo_hear(
    before: LentRecord,
    framing: FrameSetting,
    slots: &[u8],
    marks: &[u8],
    area: &mut [u8],
    map: &mut [u8],
) -> HeardAnswer
    ensures { Hear before framing slots.now marks.now area.old map.old result area.new map.new }
{
    let heard = hear(before.into(), framing.into(), slots, marks, area, map);
    let next = record_seen(before, heard.next);
    let answer = frame_answer(heard.answer, area);
    HeardAnswer { next, answer }
}

// The same over a lent record, which is updated where it stands. C has both calls.
#[unsafe(no_mangle)]
pub extern "C" fn yaxo_hear_in(
    lent: &mut LentRecord,
    framing: FrameSetting,
    slots: &[u8],
    marks: &[u8],
    area: &mut [u8],
    map: &mut [u8],
) -> FrameAnswer
    ensures { Hear lent.old framing slots.now marks.now area.old map.old (both_seen lent.new result) area.new map.new }
{
    let t = yaxo_hear(*lent, framing, slots, marks, area, map);
    *lent = t.next;
    t.answer
}
