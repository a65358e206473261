// From the input to the text: the frame is received with no marks into work space, and what it was answered is told.
ghost use Rattle.std.specs.Prelude.{◌+◌, ◌≤◌, length};
ghost use Rattle.frame.specs.Frame.{receiving};
ghost use Rattle.frame.specs.Frame.Limits.{FrameAllowed};
ghost use Rattle.text.specs.Page.{Writes};
ghost use Rattle.reader.specs.Promises.{Reports};
ghost use Rattle.reader.specs.Spoken.{answer_to, told, spoken};

use crate::head::framing;
use crate::lines::put_frame;
use buffers::filled;
use frame::numbers::number_of;
use link::{Framing, is_allowed};
use text::Page;

// Receives a frame and writes what it was answered. The map stands before the slots: the last arguments lie on the stack, and the loop over
// the map's marks would fetch its address from there for each of them.
fn put_answer(
    f: Framing,
    marks: &[u8],
    area: &mut [u8],
    map: &mut [u8],
    slots: &[u8],
    page: &mut Page,
)
    requires { (f.depth ≤ 16) × (length area.old ≤ 4080) × (length map.old ≤ 4080) × (page.old.end + 30000 ≤ length page.old.text.now) }
    ensures { Writes (told f.depth (receiving f slots.now marks.now area.old map.old)) page.old page.new }
{
    match link::receive(f, slots, marks, area, map) {
        Ok(frame) => {
            let payload = link::payload(area, Ok(frame));
            put_frame(f.depth, frame, payload, map, page);
        }
        Err(reason) => page.put_refusal(number_of(Err(reason))),
    }
}

// The same of a frame without marks, in work space of its own.
fn put_unmarked(f: Framing, slots: &[u8], page: &mut Page)
    requires { FrameAllowed f × (page.old.end + 30000 ≤ length page.old.text.now) }
    ensures { Writes (told f.depth (answer_to f slots.now)) page.old page.new }
{
    let marks: [u8; 4080] = filled(0);
    let mut area: [u8; 4080] = filled(0);
    let mut map: [u8; 4080] = filled(0);
    let count = f.n * f.depth;
    let size = f.depth * (f.n - f.r);
    put_answer(
        f,
        &marks[..count],
        &mut area[..size],
        &mut map[..count],
        slots,
        page,
    );
}

// Writes the text for an input.
fn put_spoken(input: &[u8], page: &mut Page)
    requires { page.old.end + 30000 ≤ length page.old.text.now }
    ensures { Writes (spoken input.now) page.old page.new }
{
    if input.len() < 4 {
        page.put_refusal(2);
        return;
    }
    let f = framing(input);
    if !is_allowed(f) {
        page.put_refusal(1);
        return;
    }
    put_unmarked(f, &input[4..], page);
}

// Writes the bench reader's text for an input at the start of the lent text, and answers how long it is. What stands behind it stays.
// 30,000 bytes hold every text: 26 for the first line, 48 for each of 16 words, two for each byte of a payload, and five for each slot.
pub fn report(input: &[u8], text: &mut [u8; 30000]) -> usize
    ensures { Reports input.now text.old result text.new }
{
    let mut page = Page {
        text: &mut text[..],
        end: 0,
    };
    put_spoken(input, &mut page);
    page.end
}
