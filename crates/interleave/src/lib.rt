// The interleavers of document 01: the block interleaver of a frame, and the delay line's sender and receiver.
// They move bytes and marks, and know nothing of codes or frames. What each call promises is defined in specs/, in the paper's order.
#![tactic(auto)]

mod block;
pub mod line;
mod receiver;
mod sender;
pub mod slots;

// The block interleaver.
pub use block::{BlockError, gather, spread};

// The delay line: a fresh line, a step, a run of steps.
pub use line::{Line, LineError, Received, Sent};
pub use receiver::{fresh_receiver, receive_run, receive_step};
pub use sender::{fresh_sender, send_run, send_step};
