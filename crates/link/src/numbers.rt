// The paper's numbers of what the calls on two masts and on a morning's frames answer: document 01, section Numbers a call can answer, and
// document 02, Nos. 1 and 2.
ghost use Rattle.std.specs.Prelude.{◌≡◌};
ghost use Rattle.link.specs.Masts.{masts_number, masts_word, chosen_of};
ghost use Rattle.link.specs.Replay.{replay_number, frames_heard};

use crate::choice::{Chosen, MastsError};
use crate::replaying::ReplayError;
use frame::Received;
use frame::numbers::{no_numbers, number_of, word_number};

// The number of what two copies are answered together. 8 is for two frames.
pub fn masts_number(answer: Result<Chosen, MastsError>) -> u8
    ensures { result ≡ masts_number answer }
{
    match answer {
        Ok(_) => 0,
        Err(MastsError::Refused(reason)) => number_of(Err(reason)),
        Err(MastsError::Differ) => 8,
    }
}

// The number of the refused word, where the answer names one; else 0.
pub fn masts_word(answer: Result<Chosen, MastsError>) -> u8
    ensures { result ≡ masts_word answer }
{
    match answer {
        Err(MastsError::Refused(reason)) => word_number(Err(reason)),
        _ => 0,
    }
}

// The numbers of the copy that is used; none where neither is.
pub fn chosen_of(answer: Result<Chosen, MastsError>) -> Received
    ensures { result ≡ chosen_of answer }
{
    match answer {
        Ok(chosen) => chosen.copy,
        Err(_) => no_numbers(),
    }
}

// The number of what a morning's frames are answered as a whole.
pub fn replay_number(answer: Result<usize, ReplayError>) -> u8
    ensures { result ≡ replay_number answer }
{
    match answer {
        Ok(_) => 0,
        Err(ReplayError::BadSetting) => 1,
        Err(ReplayError::BadLength) => 2,
    }
}

// How many frames were heard; none where all are refused.
pub fn frames_heard(answer: Result<usize, ReplayError>) -> usize
    ensures { result ≡ frames_heard answer }
{
    answer.unwrap_or(0)
}
