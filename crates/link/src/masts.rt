// Two masts: document 02, No. 1. Two receivers hear one frame, each with its own damage. Both copies are decoded, each into an area of its
// own and with a map of its own, and one frame is handed back and noted.
ghost use Rattle.std.specs.Prelude.{map};
ghost use Rattle.link.specs.Masts.{copy_of};
ghost use Rattle.link.specs.MastCopies.{copied, left_in, Lent};
ghost use Rattle.link.specs.Promises.{ReceivesMasts, HandsBackOne, ReceivesMastsPart, HearsMasts};

use crate::choice::{Chosen, Mast, MastsError, choose};
use crate::hearing::Heard;
use crate::numbers::{chosen_of, masts_number};
use frame::{Framing, payload, receive};
use record::{Record, note};

// A copy of a frame as one mast heard it: its slots with their marks, and the area and the map that are lent for it.
#[derive(Drop)]
pub struct MastCopy<'a> {
    pub slots: &'a [u8],
    pub marks: &'a [u8],
    pub area: &'a mut [u8],
    pub map: &'a mut [u8],
}

// Decodes each copy into its area and map as `receive` does, and answers the better one. A copy that is refused leaves the other as it is.
pub fn receive_masts(
    f: Framing,
    first: &mut MastCopy,
    second: &mut MastCopy,
) -> Result<Chosen, MastsError>
    ensures received { ReceivesMasts f (copied first.old) (copied second.old) result (left_in first.new) (left_in second.new) }
    ensures lent { Lent first.old first.new × Lent second.old second.new }
{
    let one = receive(f, first.slots, first.marks, first.area, first.map);
    let other = receive(f, second.slots, second.marks, second.area, second.map);
    choose(one, other)
}

// The payload of the copy that is used, as that part of its mast's area itself. The part is empty where neither is.
pub fn masts_payload<'a>(
    first: &'a [u8],
    second: &'a [u8],
    answer: Result<Chosen, MastsError>,
) -> &'a [u8]
    ensures { HandsBackOne first.now second.now answer result.now }
{
    match answer {
        Ok(chosen) => match chosen.mast {
            Mast::First => payload(first, Ok(chosen.copy)),
            Mast::Second => payload(second, Ok(chosen.copy)),
        },
        Err(_) => &first[0..0],
    }
}

// Decodes both copies as `receive_masts` does, and hands back both whole areas and the payload as a part of one of them. The areas come back as
// long as they are lent, so each stands here by itself, and not in a copy that is only lent on.
pub fn receive_masts_part<'a>(
    f: Framing,
    slots1: &[u8],
    marks1: &[u8],
    area1: &'a mut [u8],
    map1: &mut [u8],
    slots2: &[u8],
    marks2: &[u8],
    area2: &'a mut [u8],
    map2: &mut [u8],
) -> [&'a [u8]; 3]
    ensures { ReceivesMastsPart f (copy_of slots1.now marks1.now area1.old map1.old) (copy_of slots2.now marks2.now area2.old map2.old) (map (λ x. x.now) result) map1.new map2.new }
{
    let mut first = MastCopy {
        slots: slots1,
        marks: marks1,
        area: &mut area1[..],
        map: map1,
    };
    let mut second = MastCopy {
        slots: slots2,
        marks: marks2,
        area: &mut area2[..],
        map: map2,
    };
    let r = receive_masts(f, &mut first, &mut second);
    let s = &area1[..];
    let t = &area2[..];
    let p = masts_payload(s, t, r);
    [s, t, p]
}

// Receives both copies as `receive_masts` does, and notes what is handed back in the record, once.
pub fn hear_masts(
    before: Record,
    f: Framing,
    first: &mut MastCopy,
    second: &mut MastCopy,
) -> Heard<Result<Chosen, MastsError>>
    ensures heard { HearsMasts before f (copied first.old) (copied second.old) result.answer result.next (left_in first.new) (left_in second.new) }
    ensures lent { Lent first.old first.new × Lent second.old second.new }
{
    let answer = receive_masts(f, first, second);
    let next = note(before, masts_number(answer), chosen_of(answer).sequence);
    Heard { next, answer }
}

// The same over a lent record, which is updated where it stands. Both calls stay, since callers and README name both.
pub fn hear_masts_in(
    lent: &mut Record,
    f: Framing,
    first: &mut MastCopy,
    second: &mut MastCopy,
) -> Result<Chosen, MastsError>
    ensures heard { HearsMasts lent.old f (copied first.old) (copied second.old) result lent.new (left_in first.new) (left_in second.new) }
    ensures lent { Lent first.old first.new × Lent second.old second.new }
{
    let heard = hear_masts(*lent, f, first, second);
    *lent = heard.next;
    heard.answer
}
