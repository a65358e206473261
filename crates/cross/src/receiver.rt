// The receiver of a cross line: an inner word's bytes go on with a mark each, byte i is held back 4(27 - i) frames, and the 28 bytes that are
// due are an outer word with its marks.
ghost use Rattle.std.specs.Prelude.{◌≡◌};
ghost use Rattle.interleave.specs.Numbers.{answered};
ghost use Rattle.cross.specs.Numbers.{cross_error};
ghost use Rattle.cross.specs.Cross.{fresh_refusal, receive_refusal};
ghost use Rattle.cross.specs.Promises.{FreshReceiver, Receive};

use crate::codes::{open_inner, settle};
use crate::delays::hold_back;
use crate::position::{CrossError, Received, frames_of_a_cycle, next};
use buffers::{all_below, filled};

// Whether a receiver's memories are refused.
fn check_memories(memory: usize, held: usize) -> Result<(), CrossError>
    ensures { result ≡ answered cross_error (fresh_refusal memory held) tt }
{
    if memory != 1512 || held != 1512 {
        return Err(CrossError::BadLength);
    }
    Ok(())
}

// A receiver that has received nothing: position 0, and a memory of 1512 zeros, each marked 1. Gives the position.
// Refused for a memory of another length, and both stay as they were.
pub fn fresh_receiver(memory: &mut [u8], held: &mut [u8]) -> Result<usize, CrossError>
    ensures { FreshReceiver memory.old held.old result memory.new held.new }
{
    check_memories(memory.len(), held.len())?;
    memory.fill(0);
    held.fill(1);
    Ok(0)
}

// Whether a frame is refused.
fn check_receive(
    position: usize,
    memory: usize,
    held: &[u8],
    word: usize,
    message: usize,
    map: usize,
) -> Result<(), CrossError>
    ensures { result ≡ answered cross_error (receive_refusal position memory held.now word message map) tt }
{
    if 108 + frames_of_a_cycle() <= position {
        return Err(CrossError::BadPosition);
    }
    check_memories(memory, held.len())?;
    if word != 32 || message != 24 || map != 32 {
        return Err(CrossError::BadLength);
    }
    if !all_below(held, 2) {
        return Err(CrossError::BadMark);
    }
    Ok(())
}

// One frame: an inner word of 32 bytes goes in, and the 24 bytes of the message that was sent 108 frames before come out, with the outer
// word's figures. There is no message for the first 108 frames, and the message bytes stay as they were; and none where the outer word is
// beyond reach, and they are zeros. The frame is taken all the same.
// Refused for a position that no number of frames reaches, a length, or a mark above 1 in the memory of marks, and all stays as it was, the
// map too.
// The map is that of the inner word of this frame, whatever becomes of the outer word: of a frame that is taken it gets 1 at each of the 32
// places where the inner word was changed and 0 elsewhere, and it is all 0 where the inner word was refused.
#[tactic(auto, using(crate::specs::Checks::receive_allowed))]
pub fn receive(
    position: usize,
    memory: &mut [u8],
    held: &mut [u8],
    word: &[u8],
    message: &mut [u8],
    map: &mut [u8],
) -> Result<Received, CrossError>
    ensures { Receive position memory.old held.old word.now message.old map.old result memory.new held.new message.new map.new }
{
    check_receive(
        position,
        memory.len(),
        held,
        word.len(),
        message.len(),
        map.len(),
    )?;
    let mut bytes: [u8; 28] = filled(0);
    let mark = open_inner(word, &mut bytes, map);
    let mut marks: [u8; 28] = filled(mark);
    hold_back(memory, true, position, &mut bytes);
    hold_back(held, true, position, &mut marks);
    Ok(Received {
        position: next(position, 108),
        figures: settle(position, &bytes, &marks, message),
    })
}
