// Receiving a frame: document 01, section Block interleaver and frame. Its words are decoded into a lent message area, which then holds the
// payload; and where they were changed goes to a lent map, slot by slot: document 02, No. 6.
ghost use Rattle.std.specs.Prelude.{◌≡◌, ◌<◌, ◌≤◌, true, length, replicate};
ghost use Rattle.algebra.specs.Tests.{below};
ghost use Rattle.word.specs.Looking.{Tabled};
ghost use Rattle.interleave.specs.Slots.{TakesWord};
ghost use Rattle.frame.specs.Frame.{word_setting, slot_count, area_size, receive_outcome, settled, decoded_frame};
ghost use Rattle.frame.specs.Promises.{Receives};
ghost use Rattle.frame.specs.Frame.Limits.{FrameAllowed};
ghost use Rattle.frame.specs.Checks.{ReceiveChecked, ReceiveTold};
ghost use Rattle.frame.specs.Decoding.{WordGiven, WordTold, Collected};

use crate::setting::{Framing, ReceiveError, Received, is_allowed};
use crate::trailer::{is_good, two_at};
use buffers::{all_below, filled};
use interleave::slots::{put_word, take_word};
use word::Figures;
use word::numbers::no_figures;
use word::tables::{Tables, decode_part_by, prepare};

// A received frame that has passed the checks, with what all its words have in common: the tables of their setting, and whether no mark is set
// at all.
#[derive(Drop)]
struct Arrived<'a> {
    f: Framing,
    tables: &'a Tables,
    slots: &'a [u8],
    marks: &'a [u8],
    plain: bool,
    ghost limits: { FrameAllowed f },
    ghost slots_size: { length slots.now ≡ slot_count f },
    ghost marks_size: { length marks.now ≡ slot_count f },
    ghost marks_small: { below 2 marks.now ≡ true },
    ghost tabled: { Tabled (word_setting f) tables.now },
    ghost plain_is: { plain ≡ below 1 marks.now },
}

impl Arrived<'_> {
    // The marks of word w. They are not gathered from their slots where the frame is plain.
    fn marks_of(&self, w: usize) -> [u8; 255]
        requires { w < self.now.f.depth }
        ensures { TakesWord self.now.f.depth self.now.f.n w self.now.marks.now result }
    {
        if self.plain {
            return filled(0);
        }
        take_word(self.f.depth, self.f.n, w, self.marks)
    }

    // Decodes word w into its part of the area, and maps where it was changed.
    fn receive_word(&self, w: usize, part: &mut [u8], map: &mut [u8]) -> Option<Figures>
        requires { WordGiven self.now.f w part.old map.old }
        ensures { WordTold self.now.f w self.now.slots.now self.now.marks.now map.old result part.new map.new }
    {
        let f = self.f;
        let word = take_word(f.depth, f.n, w, self.slots);
        let marked = self.marks_of(w);
        let mut room: [u8; 255] = filled(0);
        let changed = &mut room[..f.n];
        let own = decode_part_by(
            f.words(),
            self.tables,
            &word[..f.n],
            &marked[..f.n],
            part,
            changed,
        )
        .ok()?;
        // Without changed bits the word's map is all 0, as its slots are already.
        if own.bits != 0 {
            put_word(f.depth, w, changed, map);
        }
        Some(own)
    }

    // Decodes each word into its part of the area and its slots of the map, which is cleared before; or tells the first word that is refused.
    fn receive_words(&self, area: &mut [u8], map: &mut [u8]) -> Result<[Figures; 16], u8>
        requires { (length area.old ≡ area_size self.now.f) × (length map.old ≡ slot_count self.now.f) }
        ensures { Collected self.now.f self.now.slots.now self.now.marks.now result area.new map.new }
    {
        map.fill(0);
        let k = self.f.message();
        let mut figures = [no_figures(); 16];
        for w in 0..self.f.depth {
            let a = w * k;
            let part = &mut area[a..a + k];
            let Some(own) = self.receive_word(w, part, map) else {
                return Err(w as u8);
            };
            figures[w] = own;
        }
        Ok(figures)
    }
}

// What a frame leaves that is refused once it has been decoded: zeros.
fn clear(whole: &mut [u8], changed: &mut [u8])
    ensures { (whole.new ≡ replicate (length whole.old) 0) × (changed.new ≡ replicate (length changed.old) 0) }
{
    whole.fill(0);
    changed.fill(0);
}

// The answer of a frame whose words are all accepted: what its trailer says.
#[tactic(auto, using(crate::specs::Receiving::settled_bad, crate::specs::Receiving::settled_good))]
fn settle(
    whole: &mut [u8],
    map: &mut [u8],
    figures: [Figures; 16],
) -> Result<Received, ReceiveError>
    requires { 4 ≤ length whole.old }
    ensures { receive_outcome result whole.new map.new ≡ settled (length whole.old) figures whole.old map.old }
{
    if !is_good(whole) {
        clear(whole, map);
        return Err(ReceiveError::BadTrailer);
    }
    let end = whole.len() - 4;
    Ok(Received {
        sequence: two_at(whole, end + 2),
        back: two_at(whole, end),
        figures,
    })
}

// Decodes a frame that has passed the checks. Its words have one setting, so they have their tables in common.
#[tactic(auto, using(crate::specs::Receiving::decoded_beyond, crate::specs::Receiving::decoded_settled))]
fn receive_checked(
    f: Framing,
    slots: &[u8],
    marks: &[u8],
    area: &mut [u8],
    map: &mut [u8],
) -> Result<Received, ReceiveError>
    requires { ReceiveChecked f slots.now marks.now area.old map.old }
    ensures { receive_outcome result area.new map.new ≡ decoded_frame f slots.now marks.now }
{
    let mut tables = Tables::none();
    prepare(f.words(), &mut tables);
    let arrived = Arrived {
        f,
        tables: &tables,
        slots,
        marks,
        plain: all_below(marks, 1),
    };
    match arrived.receive_words(area, map) {
        Ok(figures) => settle(area, map, figures),
        Err(w) => {
            clear(area, map);
            Err(ReceiveError::BeyondReach(w))
        }
    }
}

// Whether a frame can be decoded into this area and this map. The setting comes first: within its limits the lengths fit.
#[tactic(auto, using(crate::specs::Checks::told))]
fn check_receive(
    f: Framing,
    slots: &[u8],
    marks: &[u8],
    area: &[u8],
    map: &[u8],
) -> Result<(), ReceiveError>
    ensures { ReceiveTold f slots.now marks.now area.now map.now result }
{
    if !is_allowed(f) {
        return Err(ReceiveError::BadSetting);
    }
    let size = f.slots();
    if slots.len() != size || marks.len() != size || area.len() != f.area() || map.len() != size {
        return Err(ReceiveError::BadLength);
    }
    if !all_below(marks, 2) {
        return Err(ReceiveError::BadMark);
    }
    Ok(())
}

// Decodes a received frame into the lent area of A bytes; its slots and marks are only read. The map, which has a mark for each slot, gets 1
// where a slot was changed, and 0 elsewhere. A frame that is beyond reach or has a bad trailer leaves zeros in the area and in the map, and any
// other refusal leaves both as they were.
#[tactic(auto, using(crate::specs::Receiving::receive_refused, crate::specs::Receiving::receive_decoded, std::proofs::lemmas::Result::err_from_is_err_and))]
pub fn receive(
    f: Framing,
    slots: &[u8],
    marks: &[u8],
    area: &mut [u8],
    map: &mut [u8],
) -> Result<Received, ReceiveError>
    ensures { Receives f slots.now marks.now area.old map.old result area.new map.new }
{
    check_receive(f, slots, marks, area, map)?;
    receive_checked(f, slots, marks, area, map)
}
