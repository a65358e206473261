// The receiver's record: document 01, section Receiver's record, with the memory of document 02, No. 7. It holds the newest sequence
// number, which of the 32 just below it were accepted, and how many frames were newer, repeated, older, refused and late. What each call
// promises is defined in specs/Record.antt and specs/Promises.antt.
#![tactic(auto)]

ghost use Rattle.std.specs.Prelude.{◌≡◌, ◌≤◌};
ghost use Rattle.record.specs.Memory.{unseen_in};
ghost use Rattle.record.specs.Record.{one_more, fresh_record, memory_after, counted_as, lost_after, behind_by, standing};
ghost use Rattle.record.specs.Promises.{Notes};
ghost use Rattle.record.specs.declared.Kind.TheVariants.{Newer};

mod memory;
mod order;

use memory::{count_unseen, see, seen_at, slide};
use order::{Order, compare, lag_of, lead_of};

// A caller makes it by `fresh` and hands it to every call that receives. What `radio` lends to C has the same fields in the same order.
#[derive(Clone, Copy, Debug, PartialEq, Eq, Default)]
pub struct Record {
    // The flag stands beside the numbers, and not around them: `Notes` and `standing` speak of a record that has accepted nothing with any of these.
    pub accepted: bool,
    pub last: u16,
    pub newer: u32,
    pub repeat: u32,
    pub older: u32,
    pub refused: u32,
    pub late: u32,
    pub seen: u32,
}

// How a sequence number stands to what the record has accepted.
#[derive(Clone, Copy, Debug, PartialEq, Eq)]
pub enum Kind {
    Newer,
    Repeat,
    Older,
    Late,
}

// A record that has accepted nothing; its numbers are 0.
pub fn fresh() -> Record
    ensures { result ≡ fresh_record }
{
    Record::default()
}

// What an accepted frame is that lies this far behind the last newest one: beyond the memory's reach it is older.
fn behind_by(seen: u32, distance: u16) -> Kind
    requires { 1 ≤ distance }
    ensures { result ≡ behind_by seen distance }
{
    if distance > 32 {
        return Kind::Older;
    }
    if seen_at(seen, distance) {
        return Kind::Repeat;
    }
    Kind::Late
}

// How an accepted frame with this number stands to what the record has accepted. The first is newer, whatever the last number says.
#[tactic(auto, using(crate::specs::Record::Laws::behind_lags), unfolding(crate::specs::Record::standing))]
pub fn standing_of(before: Record, sequence: u16) -> Kind
    ensures { result ≡ standing before sequence }
{
    if !before.accepted {
        return Kind::Newer;
    }
    match compare(sequence, before.last) {
        Order::Same => Kind::Repeat,
        Order::Ahead => Kind::Newer,
        Order::Behind => behind_by(before.seen, lag_of(sequence, before.last)),
    }
}

// How many of the 32 numbers just below the last newest one were not accepted.
pub fn unseen_of(before: Record) -> u32
    ensures { result ≡ unseen_in before.seen }
{
    count_unseen(before.seen)
}

// One more; a count at the top stays there, since a count that wraps would tell of a receiver that heard nothing.
fn one_more(count: u32) -> u32
    ensures { result ≡ one_more count }
{
    count.saturating_add(1)
}

// The memory once a newer number is the last. The first frame leaves all 32 unseen, whatever the memory says.
#[tactic(auto, using(crate::specs::Record::Laws::newer_leads), unfolding(crate::specs::Record::memory_after))]
fn memory_after(before: Record, sequence: u16) -> u32
    requires { Newer ≡ standing before sequence }
    ensures { result ≡ memory_after before sequence }
{
    if before.accepted {
        return slide(before.seen, lead_of(sequence, before.last));
    }
    0
}

// The record after an accepted frame of this kind: only a newer one moves the last number, and a late one is remembered.
#[tactic(auto, using(crate::specs::Record::Laws::late_within))]
fn counted(before: Record, sequence: u16, kind: Kind) -> Record
    requires { kind ≡ standing before sequence }
    ensures { result ≡ counted_as before sequence kind }
{
    match kind {
        Kind::Newer => Record {
            accepted: true,
            last: sequence,
            newer: one_more(before.newer),
            seen: memory_after(before, sequence),
            ..before
        },
        Kind::Repeat => Record {
            accepted: true,
            repeat: one_more(before.repeat),
            ..before
        },
        Kind::Older => Record {
            accepted: true,
            older: one_more(before.older),
            ..before
        },
        Kind::Late => Record {
            accepted: true,
            late: one_more(before.late),
            seen: see(before.seen, lag_of(sequence, before.last)),
            ..before
        },
    }
}

// The record after a frame that was refused 4 or 5.
fn lost(before: Record) -> Record
    ensures { result ≡ lost_after before }
{
    Record {
        refused: one_more(before.refused),
        ..before
    }
}

// The record after a frame that was answered `number`; its sequence number counts only where that is 0.
// 4 and 5 add to the refused ones, and every other refusal leaves the record as it was. It stays a number, since C hands any byte on, and `Notes`
// says what each of them leaves.
#[tactic(auto, unfolding(crate::specs::Record::noted))]
pub fn note(before: Record, number: u8, sequence: u16) -> Record
    ensures { Notes before number sequence result }
{
    match number {
        0 => counted(before, sequence, standing_of(before, sequence)),
        4 | 5 => lost(before),
        _ => before,
    }
}

// The same over a lent record, which is updated where it stands. Both calls stay, since callers and README name both.
pub fn note_in(lent: &mut Record, number: u8, sequence: u16)
    ensures { Notes lent.old number sequence lent.new }
{
    *lent = note(*lent, number, sequence);
}
