// The link: document 01, sections Block interleaver and frame, and Receiver's record. A payload and its sequence number are sent as one
// frame of interleaved words; a received frame is decoded into a lent message area, which then holds the payload; and what each frame was
// answered is noted in the receiver's record. Frames that lie end to end are heard in one call: document 02, No. 2, A morning's frames at once. Two
// receivers may hear one frame: No. 1, Two masts. What each call promises stands in specs/Promises.antt, and in those of frame and record.
#![tactic(auto)]

mod choice;
mod hearing;
mod masts;
pub mod numbers;
mod part;
mod replaying;

// Frames.
pub use frame::{
    CleanError, Framing, ReceiveError, Received, SendError, is_allowed, is_clean, payload, receive,
    send,
};
pub use part::receive_part;

// The receiver's record.
pub use record::{Kind, Record, fresh, note, note_in, standing_of, unseen_of};

// The receiver's whole call.
pub use hearing::{Heard, hear, hear_in};

// A morning's frames at once.
pub use replaying::{ReplayError, replay, replay_in};

// Two masts.
pub use choice::{Chosen, Mast, MastsError};
pub use masts::{
    MastCopy, hear_masts, hear_masts_in, masts_payload, receive_masts, receive_masts_part,
};
