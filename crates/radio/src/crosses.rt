// The cross line for C: of an answer C sees its number, and the position for the next frame, which stays where the call is refused.
ghost use Rattle.std.specs.Prelude.{◌≡◌};
ghost use Rattle.cross.specs.Numbers.{taken_number};
ghost use Rattle.radio.specs.Crosses.{ready_seen, received_seen, CrossFreshSender, CrossFreshReceiver, CrossSend, CrossReceive};

use crate::lines::Ready;
use cross::{CrossError, NoMessage, Received, fresh_receiver, fresh_sender, receive, send};
use word::Figures;
use word::numbers::no_figures;

// What a frame received answers: its number, e, f and bits of its outer word (0 under any other answer), and the position for the next frame.
#[repr(C)]
#[derive(Clone, Copy)]
pub struct CrossReceived {
    pub answer: u8,
    pub figures: Figures,
    pub position: usize,
}

// The answer of a call at a position, as C sees it. It stands beside `line_ready`, since the two errors have no type in common, and a trait for
// their numbers would be longer than both.
fn cross_ready(position: usize, answer: Result<usize, CrossError>) -> Ready
    ensures { result ≡ ready_seen position answer }
{
    match answer {
        Ok(later) => Ready {
            answer: 0,
            position: later,
        },
        Err(e) => Ready {
            answer: e.number(),
            position,
        },
    }
}

// The number of a frame that was taken: 0 where it gives a message.
fn taken_number(figures: Result<Figures, NoMessage>) -> u8
    ensures { result ≡ taken_number figures }
{
    match figures {
        Ok(_) => 0,
        Err(e) => e.number(),
    }
}

// A received frame's answer as C sees it. One that was taken moves the line on, whether it gives a message or not.
fn cross_received(position: usize, answer: Result<Received, CrossError>) -> CrossReceived
    ensures { result ≡ received_seen position answer }
{
    match answer {
        Ok(taken) => CrossReceived {
            answer: taken_number(taken.figures),
            figures: taken.figures.unwrap_or(no_figures()),
            position: taken.position,
        },
        Err(e) => CrossReceived {
            answer: e.number(),
            figures: no_figures(),
            position,
        },
    }
}

// A sender that has sent nothing. Answers 0 or 2; refused, the memory stays as it was.
#[unsafe(no_mangle)]
pub extern "C" fn yaxo_cross_fresh_sender(memory: &mut [u8]) -> Ready
    ensures { CrossFreshSender memory.old result memory.new }
{
    cross_ready(0, fresh_sender(memory))
}

// A receiver that has received nothing. Answers 0 or 2; refused, both memories stay as they were.
#[unsafe(no_mangle)]
pub extern "C" fn yaxo_cross_fresh_receiver(memory: &mut [u8], held: &mut [u8]) -> Ready
    ensures { CrossFreshReceiver memory.old held.old result memory.new held.new }
{
    cross_ready(0, fresh_receiver(memory, held))
}

// Sends a frame: 24 bytes go in, and 32 come out. Answers 0, 1 or 2; refused, all stays as it was.
#[unsafe(no_mangle)]
pub extern "C" fn yaxo_cross_send(
    position: usize,
    memory: &mut [u8],
    message: &[u8],
    word: &mut [u8],
) -> Ready
    ensures { CrossSend position memory.old message.now word.old result memory.new word.new }
{
    cross_ready(position, send(position, memory, message, word))
}

// Receives a frame: 32 bytes go in, and the 24 of 108 frames before come out. The map is that of the 32. Answers 0, 1, 2, 3, 4 or 7.
#[unsafe(no_mangle)]
pub extern "C" fn yaxo_cross_receive(
    position: usize,
    memory: &mut [u8],
    held: &mut [u8],
    word: &[u8],
    message: &mut [u8],
    map: &mut [u8],
) -> CrossReceived
    ensures { CrossReceive position memory.old held.old word.now message.old map.old result memory.new held.new message.new map.new }
{
    cross_received(
        position,
        receive(position, memory, held, word, message, map),
    )
}
