// The cross line of document 01: an outer word's bytes are spread over 109 frames, and each frame goes out as an inner word. A frame is one
// call, both ways. What each call promises is defined in specs/, in the paper's order.
#![tactic(auto)]

mod codes;
mod delays;
pub mod position;
mod receiver;
mod sender;

// A fresh line, a frame.
pub use position::{CrossError, NoMessage, Received};
pub use receiver::{fresh_receiver, receive};
pub use sender::{fresh_sender, send};
