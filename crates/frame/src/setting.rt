// A frame's setting with its limits, and what the calls on a frame answer.
ghost use Rattle.std.specs.Prelude.{◌≡◌};
ghost use Rattle.word.specs.Setting.{message_size};
ghost use Rattle.frame.specs.Frame.{word_setting, slot_count, area_size, allowed_frame};
ghost use Rattle.frame.specs.Frame.Limits.{Small};

use word::{Figures, Setting};

// What a frame is set to: its depth, and its words' n, r and b. Its symbols are bytes.
#[derive(Clone, Copy)]
pub struct Framing {
    pub depth: usize,
    pub n: usize,
    pub r: usize,
    pub b: usize,
}

// Why a payload is not sent.
#[derive(Clone, Copy, Debug, PartialEq, Eq)]
pub enum SendError {
    BadSetting,
    BadLength,
    LongPayload,
}

// Why a frame is not received. One beyond reach names its first word that is.
#[derive(Clone, Copy, Debug, PartialEq, Eq)]
pub enum ReceiveError {
    BadSetting,
    BadLength,
    BadMark,
    BeyondReach(u8),
    BadTrailer,
}

// The numbers of an accepted frame, with the figures of each word.
#[derive(Clone, Copy)]
pub struct Received {
    pub sequence: u16,
    pub back: u16,
    pub figures: [Figures; 16],
}

impl Framing {
    // The setting of the frame's words.
    pub fn words(self) -> Setting
        ensures { result ≡ word_setting self }
    {
        Setting {
            m: 8,
            n: self.n,
            r: self.r,
            b: self.b,
        }
    }

    // How many slots the frame has.
    pub(crate) fn slots(self) -> usize
        requires { Small self }
        ensures { result ≡ slot_count self }
    {
        self.n * self.depth
    }

    // How many bytes a word's message has.
    pub(crate) fn message(self) -> usize
        requires { Small self }
        ensures { result ≡ message_size (word_setting self) }
    {
        self.n - self.r
    }

    // How many bytes the message area has.
    pub(crate) fn area(self) -> usize
        requires { Small self }
        ensures { result ≡ area_size self }
    {
        self.depth * self.message()
    }
}

// Whether a frame's setting keeps the limits. The words' come first, so that the area's size is small.
#[tactic(auto, using(crate::specs::Frame::Limits::small_yes), unfolding(crate::specs::Frame::allowed_frame))]
pub fn is_allowed(f: Framing) -> bool
    ensures { result ≡ allowed_frame f }
{
    word::limits::is_allowed(f.words()) && 1 <= f.depth && f.depth <= 16 && 4 <= f.area()
}
