// A frame: document 01, section Block interleaver and frame. A payload and its sequence number are sent as one frame of interleaved words; a
// received frame is decoded into a lent message area, which then holds the payload, or only asked whether it is clean. What a frame is stands
// in specs/Frame.antt, in the paper's order, and what each call promises in specs/Promises.antt.
#![tactic(auto)]

pub mod clean;
pub mod numbers;
mod receiver;
mod sender;
pub mod setting;
mod trailer;

pub use clean::{CleanError, is_clean};
pub use receiver::receive;
pub use sender::send;
pub use setting::{Framing, ReceiveError, Received, SendError, is_allowed};
pub use trailer::payload;
