// The sender of a delay line: branch j holds a byte back by j * unit * branches steps.
ghost use Rattle.interleave.specs.Promises.{FreshSender, SendStep, SendRun};

use crate::line::{Line, LineError, Sent};

// A line at position 0 whose memory is zeros: every sender starts here.
// Refused for a setting outside the limits or a memory of another length, which stays as it was.
pub fn fresh_sender(
    branches: usize,
    unit: usize,
    n: usize,
    memory: &mut [u8],
) -> Result<Line, LineError>
    ensures { FreshSender branches unit n memory.old result memory.new }
{
    let line = Line::fresh(branches, unit, n);
    line.check(memory.len())?;
    memory.fill(0);
    Ok(line)
}

// One step: the byte goes in, and the one that is due on this branch comes out.
// Refused for the setting, the position or the memory's length, and all stays as it was.
pub fn send_step(line: Line, memory: &mut [u8], byte: u8) -> Result<Sent, LineError>
    ensures { SendStep line memory.old byte result memory.new }
{
    let mut one = [byte; 1];
    let later = send_run(line, memory, &mut one)?;
    Ok(Sent {
        byte: one[0],
        line: later,
    })
}

// A step for each of the bytes, in order; what leaves at a step takes the place of what went in. Refused as `send_step` is.
pub fn send_run(line: Line, memory: &mut [u8], bytes: &mut [u8]) -> Result<Line, LineError>
    ensures { SendRun line memory.old bytes.old result memory.new bytes.new }
{
    line.check(memory.len())?;
    let position = line.run(false, memory, bytes);
    Ok(Line { position, ..line })
}
