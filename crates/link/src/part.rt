// Receiving a frame and finding its payload in one call: document 01, section Block interleaver and frame.
ghost use Rattle.std.specs.Prelude.{map as list_map};
ghost use Rattle.link.specs.Promises.{ReceivesPart};

use frame::{Framing, payload, receive};

// Decodes a received frame into the lent area and map as `receive` does, and hands back the whole area and the payload as that part of it.
pub fn receive_part<'a>(
    f: Framing,
    slots: &[u8],
    marks: &[u8],
    area: &'a mut [u8],
    map: &mut [u8],
) -> [&'a [u8]; 2]
    ensures { ReceivesPart f slots.now marks.now area.old map.old (list_map (λ x. x.now) result) map.new }
{
    let r = receive(f, slots, marks, &mut area[..], map);
    let t = &area[..];
    let p = payload(t, r);
    [t, p]
}
