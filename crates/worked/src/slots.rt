// The delay line: the bytes of P12 from end to end, and the limit of its n.
use interleave::{Line, LineError};

// P12: what leaves the sender is fed to the receiver.
pub fn comes_back() -> bool {
    let mut bytes = [1u8, 2, 3, 4, 5, 6, 7, 8];
    let mut marks = [0u8; 8];
    sends(&mut bytes).is_ok()
        && bytes == [1, 0, 3, 0, 5, 2, 7, 4]
        && receives(&mut bytes, &mut marks).is_ok()
        && bytes == [0, 0, 0, 0, 1, 2, 3, 4]
        && marks == [1, 0, 1, 0, 0, 0, 0, 0]
}

// Bytes go through a fresh sender of I = 2 and M = 2; 4 is the one n that fits. The old bytes of its memory must not show.
fn sends(bytes: &mut [u8]) -> Result<Line, LineError> {
    let mut memory = [9u8; 2];
    let line = interleave::fresh_sender(2, 2, 4, &mut memory)?;
    interleave::send_run(line, &mut memory, bytes)
}

// The same through a fresh receiver, with marks.
fn receives(bytes: &mut [u8], marks: &mut [u8]) -> Result<Line, LineError> {
    let mut memory = [9u8; 2];
    let mut held = [9u8; 2];
    let line = interleave::fresh_receiver(2, 2, 4, &mut memory, &mut held)?;
    interleave::receive_run(line, &mut memory, &mut held, bytes, marks)
}

// Whether a fresh sender and a fresh receiver of I = 12 and M = 17, which are EN 300 421's, stand for this n, or are both refused so.
pub fn fresh_answers(n: usize, refusal: Option<LineError>) -> bool {
    let mut memory = [9u8; 1122];
    let sender = interleave::fresh_sender(12, 17, n, &mut memory);
    let mut held = [9u8; 1122];
    let receiver = interleave::fresh_receiver(12, 17, n, &mut memory, &mut held);
    sender.err() == refusal && receiver.err() == refusal
}
