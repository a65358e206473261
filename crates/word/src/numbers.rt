// Document 01, section Numbers a call can answer: the paper's number of a word's answer, and its figures. They stay calls, one for each answer,
// since the promises speak of an answer's number by definitions of these names.
ghost use Rattle.std.specs.Prelude.{◌≡◌};
ghost use Rattle.word.specs.Answers.{input_number, decode_number, encoded_number, number_of, figures_of, no_figures};

use crate::{DecodeError, Figures, InputError};

impl InputError {
    // The number of a refused input.
    pub fn number(self) -> u8
        ensures { result ≡ input_number self }
    {
        match self {
            InputError::BadSetting => 1,
            InputError::BadLength => 2,
            InputError::BadSymbol => 3,
        }
    }
}

impl DecodeError {
    // The number of a refused word.
    pub fn number(self) -> u8
        ensures { result ≡ decode_number self }
    {
        match self {
            DecodeError::BadSetting => 1,
            DecodeError::BadLength => 2,
            DecodeError::BadSymbol => 3,
            DecodeError::BeyondReach => 4,
        }
    }
}

// The number of an encoder's answer.
pub fn encoded_number(answer: Result<(), InputError>) -> u8
    ensures { result ≡ encoded_number answer }
{
    match answer {
        Ok(()) => 0,
        Err(e) => e.number(),
    }
}

// The number of a decoder's answer.
pub fn number_of(answer: Result<Figures, DecodeError>) -> u8
    ensures { result ≡ number_of answer }
{
    match answer {
        Ok(_) => 0,
        Err(e) => e.number(),
    }
}

// The figures of a word that has none.
pub fn no_figures() -> Figures
    ensures { result ≡ no_figures }
{
    Figures::default()
}

// The figures of a decoder's answer; a refused word has none.
pub fn figures_of(answer: Result<Figures, DecodeError>) -> Figures
    ensures { result ≡ figures_of answer }
{
    answer.unwrap_or(no_figures())
}
