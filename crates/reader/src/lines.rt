// The lines that the bench reader prints of an accepted frame: document 01, section Worked table, and document 02, No. 6. There is a first
// line, a line for each word, the payload, and the slots that were changed.
ghost use Rattle.std.specs.Prelude.{◌≡◌, ◌+◌, ◌*◌, ◌≤◌, ◌<◌, length};
ghost use Rattle.text.specs.Page.{Writes, WritesWithin};
ghost use Rattle.reader.specs.Lines.{first_line, word_line, word_lines, slots_line, slot_text, frame_text};

use link::Received;
use text::Page;
use word::Figures;

// Writes the first line: the sequence number and the payload's length.
fn put_first(sequence: u16, size: usize, page: &mut Page)
    requires { (size < 100000) × (page.old.end + 26 ≤ length page.old.text.now) }
    ensures { WritesWithin 26 (first_line sequence size) page.old page.new }
{
    page.put_named(b"frame ", usize::from(sequence));
    page.put_named(b" payload ", size);
    page.put_byte(b'\n');
}

// Writes the line of word w.
fn put_word(w: usize, f: Figures, page: &mut Page)
    requires { (w < 16) × (page.old.end + 48 ≤ length page.old.text.now) }
    ensures { WritesWithin 48 (word_line w f) page.old page.new }
{
    page.put_named(b"word ", w);
    page.put_named(b" errors ", usize::from(f.errors));
    page.put_named(b" marked ", usize::from(f.marked));
    page.put_named(b" bits ", usize::from(f.bits));
    page.put_byte(b'\n');
}

// Writes the lines of all words.
fn put_words(depth: usize, figures: [Figures; 16], page: &mut Page)
    requires { (depth ≤ 16) × (page.old.end + 48 * depth ≤ length page.old.text.now) }
    ensures { WritesWithin (48 * depth) (word_lines depth figures) page.old page.new }
{
    for w in 0..depth {
        put_word(w, figures[w], page);
    }
}

// Writes the number of a slot where it was changed, with a blank before it unless it is the first.
fn put_slot(mark: u8, first: bool, slot: usize, page: &mut Page)
    requires { (slot < 10000) × (page.old.end + 5 ≤ length page.old.text.now) }
    ensures { WritesWithin 5 (slot_text mark first slot) page.old page.new }
{
    if mark == 0 {
        return;
    }
    if !first {
        page.put_byte(b' ');
    }
    page.put_decimal(slot);
}

// Writes the line of the slots that were changed, for a map of at most 4,080 marks.
fn put_slots(map: &[u8], page: &mut Page)
    requires { (length map.now ≤ 4080) × (page.old.end + 5 * length map.now + 1 ≤ length page.old.text.now) }
    ensures { WritesWithin (5 * length map.now + 1) (slots_line map.now) page.old page.new }
{
    let start = page.end;
    for (slot, mark) in map.iter().enumerate() {
        put_slot(*mark, page.end == start, slot, page);
    }
    page.put_byte(b'\n');
}

// Writes the whole text of an accepted frame, whose payload has at most 4,080 bytes and whose map as many marks.
pub fn put_frame(depth: usize, frame: Received, payload: &[u8], map: &[u8], page: &mut Page)
    requires { (depth ≤ 16) × (length payload.now ≤ 4080) × (length map.now ≤ 4080) × (page.old.end + 796 + 2 * length payload.now + 5 * length map.now ≤ length page.old.text.now) }
    ensures { Writes (frame_text depth frame.sequence frame.figures payload.now map.now) page.old page.new }
{
    put_first(frame.sequence, payload.len(), page);
    put_words(depth, frame.figures, page);
    page.put_hexes(payload);
    page.put_byte(b'\n');
    put_slots(map, page);
}
