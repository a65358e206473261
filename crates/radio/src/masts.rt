// Two masts for C: what two copies of a frame are answered together, and the calls. The payload goes back as its place in the area of the mast
// that is used.
ghost use Rattle.std.specs.Prelude.{◌≡◌};
ghost use Rattle.link.specs.Masts.{copy_of, left_of};
ghost use Rattle.radio.specs.Masts.{two_frames, chosen_seen, both_masts_seen, MastsReceive, MastsHear};

use crate::frames::{FrameAnswer, FrameSetting, sized_answer};
use crate::records::{LentRecord, record_seen};
use link::{Chosen, Mast, MastCopy, MastsError, hear_masts, masts_payload, receive_masts};
use word::numbers::no_figures;

// The mast that is used, and what both copies are answered, as a frame's answer.
#[repr(C)]
#[derive(Clone, Copy)]
pub struct ChosenAnswer {
    pub mast: u8,
    pub frame: FrameAnswer,
}

// The record after two copies, and what they were answered. The header has it as a struct of its own.
#[repr(C)]
#[derive(Clone, Copy)]
pub struct MastsAnswer {
    pub next: LentRecord,
    pub answer: ChosenAnswer,
}

// What C is told of two accepted copies that are two frames.
fn two_frames() -> FrameAnswer
    ensures { result ≡ two_frames }
{
    FrameAnswer {
        answer: 8,
        word: 0,
        sequence: 0,
        start: 0,
        length: 0,
        figures: [no_figures(); 16],
    }
}

// The answer as C sees it, with the areas that were left: that of the copy that is used, as a frame's answer. It is a call and no `From`, since
// it takes both areas too. The payload's length is that of the part which the link hands back, so that its promise holds what C sees.
#[tactic(auto, unfolding(crate::specs::Frames::start_of))]
fn chosen_answer(t: Result<Chosen, MastsError>, first: &[u8], second: &[u8]) -> ChosenAnswer
    ensures { result ≡ chosen_seen first.now second.now t }
{
    let length = masts_payload(first, second, t).len();
    match t {
        Ok(chosen) => match chosen.mast {
            Mast::First => ChosenAnswer {
                mast: 1,
                frame: sized_answer(Ok(chosen.copy), first.len(), length),
            },
            Mast::Second => ChosenAnswer {
                mast: 2,
                frame: sized_answer(Ok(chosen.copy), second.len(), length),
            },
        },
        Err(MastsError::Refused(reason)) => ChosenAnswer {
            mast: 0,
            frame: sized_answer(Err(reason), 0, length),
        },
        Err(MastsError::Differ) => ChosenAnswer {
            mast: 0,
            frame: two_frames(),
        },
    }
}

// Receives two copies of a frame, each into its area and map as `yaxo_frame_receive` does, and answers the better one.
#[unsafe(no_mangle)]
pub extern "C" fn yaxo_masts_receive(
    framing: FrameSetting,
    slots1: &[u8],
    marks1: &[u8],
    area1: &mut [u8],
    map1: &mut [u8],
    slots2: &[u8],
    marks2: &[u8],
    area2: &mut [u8],
    map2: &mut [u8],
) -> ChosenAnswer
    ensures { MastsReceive framing (copy_of slots1.now marks1.now area1.old map1.old) (copy_of slots2.now marks2.now area2.old map2.old) result (left_of area1.new map1.new) (left_of area2.new map2.new) }
{
    let mut first = MastCopy {
        slots: slots1,
        marks: marks1,
        area: &mut area1[..],
        map: map1,
    };
    let mut second = MastCopy {
        slots: slots2,
        marks: marks2,
        area: &mut area2[..],
        map: map2,
    };
    let answer = receive_masts(framing.into(), &mut first, &mut second);
    chosen_answer(answer, area1, area2)
}

// The same, and what is handed back is noted.
#[unsafe(no_mangle)]
pub extern "C" fn yaxo_masts_hear(
    before: LentRecord,
    framing: FrameSetting,
    slots1: &[u8],
    marks1: &[u8],
    area1: &mut [u8],
    map1: &mut [u8],
    slots2: &[u8],
    marks2: &[u8],
    area2: &mut [u8],
    map2: &mut [u8],
) -> MastsAnswer
    ensures { MastsHear before framing (copy_of slots1.now marks1.now area1.old map1.old) (copy_of slots2.now marks2.now area2.old map2.old) result (left_of area1.new map1.new) (left_of area2.new map2.new) }
{
    let mut first = MastCopy {
        slots: slots1,
        marks: marks1,
        area: &mut area1[..],
        map: map1,
    };
    let mut second = MastCopy {
        slots: slots2,
        marks: marks2,
        area: &mut area2[..],
        map: map2,
    };
    let heard = hear_masts(before.into(), framing.into(), &mut first, &mut second);
    let next = record_seen(before, heard.next);
    let answer = chosen_answer(heard.answer, area1, area2);
    MastsAnswer { next, answer }
}

// The same over a lent record, which is updated where it stands. C has both calls.
#[unsafe(no_mangle)]
pub extern "C" fn yaxo_masts_hear_in(
    lent: &mut LentRecord,
    framing: FrameSetting,
    slots1: &[u8],
    marks1: &[u8],
    area1: &mut [u8],
    map1: &mut [u8],
    slots2: &[u8],
    marks2: &[u8],
    area2: &mut [u8],
    map2: &mut [u8],
) -> ChosenAnswer
    ensures { MastsHear lent.old framing (copy_of slots1.now marks1.now area1.old map1.old) (copy_of slots2.now marks2.now area2.old map2.old) (both_masts_seen lent.new result) (left_of area1.new map1.new) (left_of area2.new map2.new) }
{
    let t = yaxo_masts_hear(
        *lent, framing, slots1, marks1, area1, map1, slots2, marks2, area2, map2,
    );
    *lent = t.next;
    t.answer
}
