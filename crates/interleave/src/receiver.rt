// The receiver of a delay line: branch j holds a byte and its mark back by (branches - 1 - j) * unit * branches steps,
// so that every byte has been held back equally long once it leaves.
ghost use Rattle.std.specs.Prelude.{◌≡◌};
ghost use Rattle.interleave.specs.Numbers.{answered, line_error};
ghost use Rattle.interleave.specs.Setting.{receive_refusal};
ghost use Rattle.interleave.specs.Promises.{FreshReceiver, ReceiveStep, ReceiveRun};

use crate::line::{Line, LineError, Received};
use buffers::all_below;

// A line at position 0 whose memory is zeros, each marked 1: nothing has been received yet.
// Refused for a setting outside the limits or a memory of another length, and both memories stay as they were.
pub fn fresh_receiver(
    branches: usize,
    unit: usize,
    n: usize,
    memory: &mut [u8],
    held: &mut [u8],
) -> Result<Line, LineError>
    ensures { FreshReceiver branches unit n memory.old held.old result memory.new held.new }
{
    let line = Line::fresh(branches, unit, n);
    line.check_receiver(memory.len(), held.len())?;
    memory.fill(0);
    held.fill(1);
    Ok(line)
}

// One step: the byte and its mark go in, and those that are due on this branch come out.
// Refused for the setting or the position, a memory's length, or a mark above 1, and all stays as it was.
pub fn receive_step(
    line: Line,
    memory: &mut [u8],
    held: &mut [u8],
    byte: u8,
    mark: u8,
) -> Result<Received, LineError>
    ensures { ReceiveStep line memory.old held.old byte mark result memory.new held.new }
{
    let mut one = [byte; 1];
    let mut flag = [mark; 1];
    let later = receive_run(line, memory, held, &mut one, &mut flag)?;
    Ok(Received {
        byte: one[0],
        mark: flag[0],
        line: later,
    })
}

// A step for each of the bytes with its mark, in order; what leaves at a step takes the place of what went in.
// Refused as `receive_step` is, and where bytes and marks are not equally many. The marks of the memory are looked at once.
pub fn receive_run(
    line: Line,
    memory: &mut [u8],
    held: &mut [u8],
    bytes: &mut [u8],
    marks: &mut [u8],
) -> Result<Line, LineError>
    ensures { ReceiveRun line memory.old held.old bytes.old marks.old result memory.new held.new bytes.new marks.new }
{
    // Its numbers are taken one by one: a line that is handed over and then lent is copied in halves, which wait for numbers just stored, and a
    // step would take 10 ns more.
    let Line {
        branches,
        unit,
        n,
        position,
    } = line;
    let own = Line {
        branches,
        unit,
        n,
        position,
    };
    check_run(&own, memory.len(), held, bytes.len(), marks)?;
    let position = own.run(true, memory, bytes);
    own.run(true, held, marks);
    Ok(Line {
        branches,
        unit,
        n,
        position,
    })
}

// Whether a run of `many` bytes with these marks is refused.
fn check_run(
    line: &Line,
    length: usize,
    held: &[u8],
    many: usize,
    marks: &[u8],
) -> Result<(), LineError>
    ensures { result ≡ answered line_error (receive_refusal line.now length held.now many marks.now) tt }
{
    line.check_receiver(length, held.len())?;
    if marks.len() != many {
        return Err(LineError::BadLength);
    }
    if !all_below(held, 2) || !all_below(marks, 2) {
        return Err(LineError::BadMark);
    }
    Ok(())
}
