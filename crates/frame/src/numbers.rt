// Document 01, section Numbers a call can answer: the paper's numbers of what sending and receiving answer, and the answers of its numbers. They
// stay calls, since the promises speak of an answer's number by definitions of these names.
ghost use Rattle.std.specs.Prelude.{◌≡◌};
ghost use Rattle.frame.specs.Frame.{sent_number, sent_as, number_of, word_number, verdict_as, no_numbers, received_of};

use crate::setting::{ReceiveError, Received, SendError};
use word::numbers::no_figures;

// The number of what sending answers.
pub fn sent_number(answer: Result<(), SendError>) -> u8
    ensures { result ≡ sent_number answer }
{
    match answer {
        Ok(()) => 0,
        Err(SendError::BadSetting) => 1,
        Err(SendError::BadLength) => 2,
        Err(SendError::LongPayload) => 6,
    }
}

// The number of what receiving answers.
pub fn number_of(answer: Result<Received, ReceiveError>) -> u8
    ensures { result ≡ number_of answer }
{
    match answer {
        Ok(_) => 0,
        Err(ReceiveError::BadSetting) => 1,
        Err(ReceiveError::BadLength) => 2,
        Err(ReceiveError::BadMark) => 3,
        Err(ReceiveError::BeyondReach(_)) => 4,
        Err(ReceiveError::BadTrailer) => 5,
    }
}

// The number of the refused word, where the answer names one; else 0.
pub fn word_number(answer: Result<Received, ReceiveError>) -> u8
    ensures { result ≡ word_number answer }
{
    match answer {
        Err(ReceiveError::BeyondReach(w)) => w,
        _ => 0,
    }
}

// The answer of sending that has this number. Who has the number alone, as from a call for C, gets the answer back.
pub fn sent_as(number: u8) -> Result<(), SendError>
    ensures { result ≡ sent_as number }
{
    match number {
        0 => Ok(()),
        1 => Err(SendError::BadSetting),
        2 => Err(SendError::BadLength),
        _ => Err(SendError::LongPayload),
    }
}

// The answer of receiving that has this number, without the frame's own numbers, and names this word where it is 4. Who has both alone, as
// from a call for C or a replay's result, gets the answer back.
pub fn verdict_as(number: u8, word: u8) -> Result<(), ReceiveError>
    ensures { result ≡ verdict_as number word }
{
    match number {
        0 => Ok(()),
        1 => Err(ReceiveError::BadSetting),
        2 => Err(ReceiveError::BadLength),
        3 => Err(ReceiveError::BadMark),
        4 => Err(ReceiveError::BeyondReach(word)),
        _ => Err(ReceiveError::BadTrailer),
    }
}

// The numbers of a frame that has none.
pub fn no_numbers() -> Received
    ensures { result ≡ no_numbers }
{
    Received {
        sequence: 0,
        back: 0,
        figures: [no_figures(); 16],
    }
}

// The numbers of what receiving answers; a refused frame has none.
pub fn received_of(answer: Result<Received, ReceiveError>) -> Received
    ensures { result ≡ received_of answer }
{
    answer.unwrap_or(no_numbers())
}
