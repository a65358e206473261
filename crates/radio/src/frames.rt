// Frames for C: the setting, what receiving answers, and the calls. The payload goes back as its place in the lent area.
ghost use Rattle.std.specs.Prelude.{◌≡◌};
ghost use Rattle.frame.specs.Frame.{allowed_frame};
ghost use Rattle.radio.specs.Frames.{framing_of, start_of, frame_sized, frame_seen, clean_seen, FrameSend, FrameReceive, FrameIsClean};

use frame::numbers::{number_of, received_of, sent_number, word_number};
use frame::{
    CleanError, Framing, ReceiveError, Received, is_allowed, is_clean, payload, receive, send,
};
use word::Figures;

// A frame as C sets it, in numbers of 32 bits.
#[repr(C)]
#[derive(Clone, Copy)]
pub struct FrameSetting {
    pub depth: u32,
    pub n: u32,
    pub r: u32,
    pub b: u32,
}

// What receiving answers: the paper's number, the refused word's, the sequence number, the payload's place in the area, and the figures.
#[repr(C)]
#[derive(Clone, Copy)]
pub struct FrameAnswer {
    pub answer: u8,
    pub word: u8,
    pub sequence: u16,
    pub start: usize,
    pub length: usize,
    pub figures: [Figures; 16],
}

// What a frame that is only asked about is answered: the paper's number, 1 where every word is a codeword, and the first word that is none.
#[repr(C)]
#[derive(Clone, Copy)]
pub struct FrameClean {
    pub answer: u8,
    pub clean: u8,
    pub word: u8,
}

// The setting below.
impl From<FrameSetting> for Framing {
    ghost from_gives = { λ framing f. f ≡ framing_of framing };

    fn from(framing: FrameSetting) -> Framing {
        Framing {
            depth: framing.depth as usize,
            n: framing.n as usize,
            r: framing.r as usize,
            b: framing.b as usize,
        }
    }
}

// Where a payload of so many bytes starts in an area of `size`: it ends four before the end. 0 where the frame was refused, which the number
// that C sees beside it tells.
#[tactic(auto, unfolding(crate::specs::Frames::start_of))]
pub fn start_of(number: u8, size: usize, length: usize) -> usize
    ensures { result ≡ start_of number size length }
{
    if number != 0 {
        return 0;
    }
    size.saturating_sub(4).saturating_sub(length)
}

// A frame's answer as C sees it, with how many bytes the area has that it left, and how many its payload. It is a call and no `From`, since it
// takes both lengths too: of one frame the payload is found in one way, and of two copies in another.
pub fn sized_answer(t: Result<Received, ReceiveError>, size: usize, length: usize) -> FrameAnswer
    ensures { result ≡ frame_sized size length t }
{
    let answer = number_of(t);
    let numbers = received_of(t);
    let figures = numbers.figures;
    FrameAnswer {
        answer,
        word: word_number(t),
        sequence: numbers.sequence,
        start: start_of(answer, size, length),
        length,
        figures,
    }
}

// The same with the area itself, in which the payload is found.
pub fn frame_answer(t: Result<Received, ReceiveError>, area: &[u8]) -> FrameAnswer
    ensures { result ≡ frame_seen area.now t }
{
    sized_answer(t, area.len(), payload(area, t).len())
}

// The answer of a frame that is only asked about, as C sees it.
impl From<Result<Option<u8>, CleanError>> for FrameClean {
    ghost from_gives = { λ d r. r ≡ clean_seen d };

    fn from(d: Result<Option<u8>, CleanError>) -> FrameClean {
        let (answer, clean, word) = match d {
            Ok(None) => (0, 1, 0),
            Ok(Some(word)) => (0, 0, word),
            Err(CleanError::BadSetting) => (1, 0, 0),
            Err(CleanError::BadLength) => (2, 0, 0),
        };
        FrameClean {
            answer,
            clean,
            word,
        }
    }
}

// Whether a frame's setting keeps the limits.
#[unsafe(no_mangle)]
pub extern "C" fn yaxo_frame_is_allowed(framing: FrameSetting) -> bool
    ensures { result ≡ allowed_frame (framing_of framing) }
{
    is_allowed(framing.into())
}

// Sends a payload with its sequence number. Answers 0, 1, 2 or 6; refused, the slots stay as they were.
#[unsafe(no_mangle)]
pub extern "C" fn yaxo_frame_send(
    framing: FrameSetting,
    payload: &[u8],
    sequence: u16,
    slots: &mut [u8],
) -> u8
    ensures { FrameSend framing payload.now sequence slots.old result slots.new }
{
    sent_number(send(framing.into(), payload, sequence, slots))
}

// Receives a frame into the lent area and map. Answers 0 to 5; under 1, 2 and 3 both stay as they were, under 4 and 5 they are zeros.
#[unsafe(no_mangle)]
pub extern "C" fn yaxo_frame_receive(
    framing: FrameSetting,
    slots: &[u8],
    marks: &[u8],
    area: &mut [u8],
    map: &mut [u8],
) -> FrameAnswer
    ensures { FrameReceive framing slots.now marks.now area.old map.old result area.new map.new }
{
    let answer = receive(framing.into(), slots, marks, area, map);
    frame_answer(answer, area)
}

// Whether every word of a frame is a codeword as received, and which is the first that is none. Answers 0, 1 or 2.
#[unsafe(no_mangle)]
pub extern "C" fn yaxo_frame_is_clean(framing: FrameSetting, slots: &[u8]) -> FrameClean
    ensures { FrameIsClean framing slots.now result }
{
    is_clean(framing.into(), slots).into()
}
