// The bench reader: document 01, section Worked table. A frame as it came off the air, with its setting before it, becomes a text that a
// person reads: what was wrong in each word, and the payload. All of it is done on slices, so that a program has only to read and write.
#![tactic(auto)]

mod head;
mod lines;
mod reading;

// What stands before the slots.
pub use head::{framing, wanted};

// The whole text.
pub use reading::report;
