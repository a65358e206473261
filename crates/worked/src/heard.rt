// How the receiver's record stands to a sequence number, by `standing_of` and by what `note` makes of the record.
use record::{Kind, Record};

// A record whose last newest number is this one, and that has seen none below it.
fn heard(last: u16) -> Record {
    Record {
        accepted: true,
        last,
        newer: 1,
        ..record::fresh()
    }
}

// Whether an accepted frame is newer: it is counted as that, and is the last number from then on.
pub fn is_newer(last: u16, new: u16) -> bool {
    let after = record::note(heard(last), 0, new);
    record::standing_of(heard(last), new) == Kind::Newer && after.last == new && after.newer == 2
}

// Whether an accepted frame is older: it is counted as that, and leaves the last number.
pub fn is_older(last: u16, new: u16) -> bool {
    let after = record::note(heard(last), 0, new);
    record::standing_of(heard(last), new) == Kind::Older && after.last == last && after.older == 1
}
