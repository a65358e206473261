// The receiver's record for C: as C lends it, and the calls.
ghost use Rattle.std.specs.Prelude.{◌≡◌};
ghost use Rattle.record.specs.Memory.{unseen_in};
ghost use Rattle.record.specs.Record.{standing};
ghost use Rattle.radio.specs.Records.{flag_after, record_of, record_seen, fresh_lent, kind_number, judged_by, RecordNote};

use record::{Kind, Record, note, standing_of, unseen_of};

// The record as C lends it. C can put any byte where a `bool` is to be, so `accepted` is a byte: 0, or anything else for yes.
#[repr(C)]
#[derive(Clone, Copy, Default)]
pub struct LentRecord {
    pub accepted: u8,
    pub last: u16,
    pub newer: u32,
    pub repeat: u32,
    pub older: u32,
    pub refused: u32,
    pub late: u32,
    pub seen: u32,
}

// The record below.
impl From<LentRecord> for Record {
    ghost from_gives = { λ lent h. h ≡ record_of lent };

    fn from(lent: LentRecord) -> Record {
        Record {
            accepted: lent.accepted != 0,
            last: lent.last,
            newer: lent.newer,
            repeat: lent.repeat,
            older: lent.older,
            refused: lent.refused,
            late: lent.late,
            seen: lent.seen,
        }
    }
}

// The byte that tells whether a frame was accepted. One that tells it already stays as it is, so that a record that is left alone
// is left alone to the byte.
#[tactic(auto, unfolding(crate::specs::Records::flag_after))]
fn flag_after(flag: u8, accepted: bool) -> u8
    ensures { result ≡ flag_after flag accepted }
{
    if flag != 0 { flag } else { u8::from(accepted) }
}

// The next record as C sees it. It is a call and no `From`, since it takes the record before too.
pub fn record_seen(before: LentRecord, next: Record) -> LentRecord
    ensures { result ≡ record_seen before next }
{
    LentRecord {
        accepted: flag_after(before.accepted, next.accepted),
        last: next.last,
        newer: next.newer,
        repeat: next.repeat,
        older: next.older,
        refused: next.refused,
        late: next.late,
        seen: next.seen,
    }
}

// The number of a standing, in the record's order; the header has these numbers. Late came last, so that those before it keep their meaning.
fn kind_number(kind: Kind) -> u8
    ensures { result ≡ kind_number kind }
{
    match kind {
        Kind::Newer => 0,
        Kind::Repeat => 1,
        Kind::Older => 2,
        Kind::Late => 3,
    }
}

// A record that has accepted nothing.
#[unsafe(no_mangle)]
pub extern "C" fn yaxo_record_fresh() -> LentRecord
    ensures { result ≡ fresh_lent }
{
    LentRecord::default()
}

// A record of which only these three are known. They alone decide how a number stands, and which are unseen.
fn judged_by(accepted: u8, last: u16, seen: u32) -> LentRecord
    ensures { result ≡ judged_by accepted last seen }
{
    LentRecord {
        accepted,
        last,
        seen,
        ..LentRecord::default()
    }
}

// How a sequence number stands to what a record has accepted: 0 newer, 1 repeat, 2 older, 3 late.
#[unsafe(no_mangle)]
pub extern "C" fn yaxo_record_standing(accepted: u8, last: u16, seen: u32, sequence: u16) -> u8
    ensures { result ≡ kind_number (standing (record_of (judged_by accepted last seen)) sequence) }
{
    let lent = judged_by(accepted, last, seen);
    kind_number(standing_of(lent.into(), sequence))
}

// How many of the 32 numbers just below a record's newest one were not accepted.
#[unsafe(no_mangle)]
pub extern "C" fn yaxo_record_unseen(seen: u32) -> u32
    ensures { result ≡ unseen_in seen }
{
    let lent = judged_by(0, 0, seen);
    unseen_of(lent.into())
}

// The record after a frame that was answered so. Only 0, 4 and 5 change it.
#[unsafe(no_mangle)]
pub extern "C" fn yaxo_record_note(before: LentRecord, answer: u8, sequence: u16) -> LentRecord
    ensures { RecordNote before answer sequence result }
{
    let next = note(before.into(), answer, sequence);
    record_seen(before, next)
}

// The same over a lent record, which is updated where it stands. C has both calls.
#[unsafe(no_mangle)]
pub extern "C" fn yaxo_record_note_in(lent: &mut LentRecord, answer: u8, sequence: u16)
    ensures { RecordNote lent.old answer sequence lent.new }
{
    *lent = yaxo_record_note(*lent, answer, sequence);
}
