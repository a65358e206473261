// The sender of a cross line: byte i of an outer word is held back 4i frames, and the 28 bytes that are due make an inner word.
ghost use Rattle.std.specs.Prelude.{◌≡◌};
ghost use Rattle.interleave.specs.Numbers.{answered};
ghost use Rattle.cross.specs.Numbers.{cross_error};
ghost use Rattle.cross.specs.Cross.{send_refusal};
ghost use Rattle.cross.specs.Promises.{FreshSender, Send};

use crate::codes::{inner_code, outer_code};
use crate::delays::hold_back;
use crate::position::{CrossError, frames_of_a_cycle, next};
use buffers::filled;
use word::encode;

// A sender that has sent nothing: position 0, and a memory of 1512 zeros. Gives the position.
// Refused for a memory of another length, which stays as it was.
pub fn fresh_sender(memory: &mut [u8]) -> Result<usize, CrossError>
    ensures { FreshSender memory.old result memory.new }
{
    if memory.len() != 1512 {
        return Err(CrossError::BadLength);
    }
    memory.fill(0);
    Ok(0)
}

// Whether a frame is refused.
fn check_send(position: usize, memory: usize, message: usize, word: usize) -> Result<(), CrossError>
    ensures { result ≡ answered cross_error (send_refusal position memory message word) tt }
{
    if frames_of_a_cycle() <= position {
        return Err(CrossError::BadPosition);
    }
    if memory != 1512 || message != 24 || word != 32 {
        return Err(CrossError::BadLength);
    }
    Ok(())
}

// One frame: the 24 bytes of the message go in, and an inner word of 32 bytes comes out. Gives the position for the next frame.
// Refused for a position that no number of frames reaches, or a length, and all stays as it was.
pub fn send(
    position: usize,
    memory: &mut [u8],
    message: &[u8],
    word: &mut [u8],
) -> Result<usize, CrossError>
    ensures { Send position memory.old message.now word.old result memory.new word.new }
{
    check_send(position, memory.len(), message.len(), word.len())?;
    // Neither code refuses bytes of the right number.
    let mut bytes: [u8; 28] = filled(0);
    let _ = encode(outer_code(), message, &mut bytes);
    hold_back(memory, false, position, &mut bytes);
    let _ = encode(inner_code(), &bytes, word);
    Ok(next(position, 0))
}
