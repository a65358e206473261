// The delay line for C. A line's setting is the caller's and does not change, so only the position goes back, as the cross line's does.
ghost use Rattle.std.specs.Prelude.{◌≡◌};
ghost use Rattle.radio.specs.Lines.{line_of, ready_seen, sent_seen, received_seen, LineFreshSender, LineFreshReceiver, LineSendStep, LineSendRun, LineReceiveStep, LineReceiveRun};

use interleave::{
    Line, LineError, Received, Sent, fresh_receiver, fresh_sender, receive_run, receive_step,
    send_run, send_step,
};

// A delay line as C sets it.
#[repr(C)]
#[derive(Clone, Copy)]
pub struct LineSetting {
    pub branches: u32,
    pub unit: u32,
    pub n: u32,
}

// What a call that hands on no byte answers: its number, and the position for the next call. The cross line answers so too.
#[repr(C)]
#[derive(Clone, Copy)]
pub struct Ready {
    pub answer: u8,
    pub position: usize,
}

// What a step of the sender answers: its number, the byte that leaves, and the position for the next step.
#[repr(C)]
#[derive(Clone, Copy)]
pub struct LineSent {
    pub answer: u8,
    pub byte: u8,
    pub position: usize,
}

// The same with the byte that leaves the receiver, and its mark.
#[repr(C)]
#[derive(Clone, Copy)]
pub struct LineReceived {
    pub answer: u8,
    pub byte: u8,
    pub mark: u8,
    pub position: usize,
}

// The line below, at a position. It is a call and no `From`, since it takes the position too.
fn line_of(line: LineSetting, position: usize) -> Line
    ensures { result ≡ line_of line position }
{
    Line {
        branches: line.branches as usize,
        unit: line.unit as usize,
        n: line.n as usize,
        position,
    }
}

// The answer of a call at a position, as C sees it: where the call is refused the position stays.
fn line_ready(position: usize, answer: Result<Line, LineError>) -> Ready
    ensures { result ≡ ready_seen position answer }
{
    match answer {
        Ok(line) => Ready {
            answer: 0,
            position: line.position,
        },
        Err(e) => Ready {
            answer: e.number(),
            position,
        },
    }
}

// The same of a step of the sender: where it is refused no byte leaves.
fn line_sent(position: usize, answer: Result<Sent, LineError>) -> LineSent
    ensures { result ≡ sent_seen position answer }
{
    match answer {
        Ok(t) => LineSent {
            answer: 0,
            byte: t.byte,
            position: t.line.position,
        },
        Err(e) => LineSent {
            answer: e.number(),
            byte: 0,
            position,
        },
    }
}

// The same of a step of the receiver.
fn line_received(position: usize, answer: Result<Received, LineError>) -> LineReceived
    ensures { result ≡ received_seen position answer }
{
    match answer {
        Ok(t) => LineReceived {
            answer: 0,
            byte: t.byte,
            mark: t.mark,
            position: t.line.position,
        },
        Err(e) => LineReceived {
            answer: e.number(),
            byte: 0,
            mark: 0,
            position,
        },
    }
}

// A sender that has sent nothing. Answers 0, 1 or 2; refused, the memory stays as it was.
#[unsafe(no_mangle)]
pub extern "C" fn yaxo_line_fresh_sender(line: LineSetting, memory: &mut [u8]) -> Ready
    ensures { LineFreshSender line memory.old result memory.new }
{
    let s = line_of(line, 0);
    line_ready(0, fresh_sender(s.branches, s.unit, s.n, memory))
}

// A receiver that has received nothing. Answers 0, 1 or 2; refused, both memories stay as they were.
#[unsafe(no_mangle)]
pub extern "C" fn yaxo_line_fresh_receiver(
    line: LineSetting,
    memory: &mut [u8],
    held: &mut [u8],
) -> Ready
    ensures { LineFreshReceiver line memory.old held.old result memory.new held.new }
{
    let s = line_of(line, 0);
    line_ready(0, fresh_receiver(s.branches, s.unit, s.n, memory, held))
}

// One step of a sender. Answers 0, 1 or 2; refused, the memory stays as it was.
#[unsafe(no_mangle)]
pub extern "C" fn yaxo_line_send_step(
    line: LineSetting,
    position: usize,
    memory: &mut [u8],
    byte: u8,
) -> LineSent
    ensures { LineSendStep line position memory.old byte result memory.new }
{
    line_sent(position, send_step(line_of(line, position), memory, byte))
}

// A step for each of the bytes, in place. Answers as a step does; refused, memory and bytes stay as they were.
#[unsafe(no_mangle)]
pub extern "C" fn yaxo_line_send_run(
    line: LineSetting,
    position: usize,
    memory: &mut [u8],
    bytes: &mut [u8],
) -> Ready
    ensures { LineSendRun line position memory.old bytes.old result memory.new bytes.new }
{
    line_ready(position, send_run(line_of(line, position), memory, bytes))
}

// One step of a receiver. Answers 0, 1, 2 or 3; refused, both memories stay as they were.
#[unsafe(no_mangle)]
pub extern "C" fn yaxo_line_receive_step(
    line: LineSetting,
    position: usize,
    memory: &mut [u8],
    held: &mut [u8],
    byte: u8,
    mark: u8,
) -> LineReceived
    ensures { LineReceiveStep line position memory.old held.old byte mark result memory.new held.new }
{
    line_received(
        position,
        receive_step(line_of(line, position), memory, held, byte, mark),
    )
}

// A step for each of the bytes with its mark, in place. Answers as a step does; refused, all that was lent stays as it was.
#[unsafe(no_mangle)]
pub extern "C" fn yaxo_line_receive_run(
    line: LineSetting,
    position: usize,
    memory: &mut [u8],
    held: &mut [u8],
    bytes: &mut [u8],
    marks: &mut [u8],
) -> Ready
    ensures { LineReceiveRun line position memory.old held.old bytes.old marks.old result memory.new held.new bytes.new marks.new }
{
    line_ready(
        position,
        receive_run(line_of(line, position), memory, held, bytes, marks),
    )
}
