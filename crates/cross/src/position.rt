// The position of a cross line: how many frames it has taken, in a number that does not grow without end. And what its calls answer.
ghost use Rattle.std.specs.Prelude.{◌≡◌, ◌+◌, ◌<◌, ◌≤◌};
ghost use Rattle.cross.specs.Numbers.{cross_number, message_number};
ghost use Rattle.cross.specs.Cross.{cycle, after};

use word::Figures;

// Why a call is refused, in the order of the paper's numbers: a position that no number of frames reaches, a length, or a mark above 1.
#[derive(Clone, Copy, Debug, PartialEq, Eq)]
pub enum CrossError {
    BadPosition,
    BadLength,
    BadMark,
}

impl CrossError {
    // The paper's number.
    pub fn number(self) -> u8
        ensures { result ≡ cross_number self }
    {
        match self {
            CrossError::BadPosition => 1,
            CrossError::BadLength => 2,
            CrossError::BadMark => 3,
        }
    }
}

// Why a frame that was taken gives no message: none is due before 108 frames have come, or the outer word is beyond its reach.
#[derive(Clone, Copy, Debug, PartialEq, Eq)]
pub enum NoMessage {
    NotYet,
    BeyondReach,
}

impl NoMessage {
    // The paper's number.
    pub fn number(self) -> u8
        ensures { result ≡ message_number self }
    {
        match self {
            NoMessage::NotYet => 7,
            NoMessage::BeyondReach => 4,
        }
    }
}

// What a frame that was taken answers: e, f and bits of its outer word, or why there is no message; and the position for the next frame.
#[derive(Clone, Copy)]
pub struct Received {
    pub position: usize,
    pub figures: Result<Figures, NoMessage>,
}

// After so many frames every ring is where it was: 4 times the least number that each of 1 to 27 divides.
pub fn frames_of_a_cycle() -> usize
    ensures { result ≡ cycle }
{
    321253732800
}

// The position after this one. The first ones are run through once, and those after them again and again.
pub fn next(position: usize, once: usize) -> usize
    requires { (position < once + cycle) × (once ≤ 108) }
    ensures { result ≡ after once position }
{
    let later = position + 1;
    if later == once + frames_of_a_cycle() {
        return once;
    }
    later
}
