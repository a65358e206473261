// The word code for C: its setting, what decoding answers, and the calls.
ghost use Rattle.std.specs.Prelude.{◌≡◌};
ghost use Rattle.word.specs.Setting.{allowed};
ghost use Rattle.radio.specs.Words.{code_of, decoded_seen, clean_seen, WordEncode, WordDecode, WordDecodePart, WordIsClean};

use word::numbers::{encoded_number, figures_of, number_of};
use word::{
    DecodeError, Figures, InputError, Setting, decode, decode_part, encode, is_allowed, is_clean,
};

// A word code as C sets it. 32 bits hold every number that C is likely to hand in by mistake, -1 too, so that it is refused.
#[repr(C)]
#[derive(Clone, Copy)]
pub struct CodeSetting {
    pub m: u32,
    pub n: u32,
    pub r: u32,
    pub b: u32,
}

// What decoding answers: the paper's number, and the figures of an accepted word.
#[repr(C)]
#[derive(Clone, Copy)]
pub struct WordAnswer {
    pub answer: u8,
    pub figures: Figures,
}

// What a word that is only asked about is answered: the paper's number, and 1 where it is a codeword.
#[repr(C)]
#[derive(Clone, Copy)]
pub struct WordClean {
    pub answer: u8,
    pub clean: u8,
}

// The setting below.
impl From<CodeSetting> for Setting {
    ghost from_gives = { λ code s. s ≡ code_of code };

    fn from(code: CodeSetting) -> Setting {
        Setting {
            m: code.m as usize,
            n: code.n as usize,
            r: code.r as usize,
            b: code.b as usize,
        }
    }
}

// A decoder's answer as C sees it.
impl From<Result<Figures, DecodeError>> for WordAnswer {
    ghost from_gives = { λ d r. r ≡ decoded_seen d };

    fn from(d: Result<Figures, DecodeError>) -> WordAnswer {
        WordAnswer {
            answer: number_of(d),
            figures: figures_of(d),
        }
    }
}

// The answer of a word that is only asked about, as C sees it.
impl From<Result<bool, InputError>> for WordClean {
    ghost from_gives = { λ d r. r ≡ clean_seen d };

    fn from(d: Result<bool, InputError>) -> WordClean {
        let (answer, clean) = match d {
            Ok(clean) => (0, u8::from(clean)),
            Err(e) => (e.number(), 0),
        };
        WordClean { answer, clean }
    }
}

// Whether a code keeps the limits.
#[unsafe(no_mangle)]
pub extern "C" fn yaxo_word_is_allowed(code: CodeSetting) -> bool
    ensures { result ≡ allowed (code_of code) }
{
    is_allowed(code.into())
}

// Encodes k message symbols to a word of n. Answers 0, 1, 2 or 3; refused, the word stays as it was.
#[unsafe(no_mangle)]
pub extern "C" fn yaxo_word_encode(code: CodeSetting, message: &[u8], word: &mut [u8]) -> u8
    ensures { WordEncode code message.now word.old result word.new }
{
    encoded_number(encode(code.into(), message, word))
}

// Corrects a word where it stands, and maps where. Answers 0 to 4; refused, the word stays as received. The map stays under 1, 2 and 3, and is
// zeros under 4.
#[unsafe(no_mangle)]
pub extern "C" fn yaxo_word_decode(
    code: CodeSetting,
    word: &mut [u8],
    marks: &[u8],
    map: &mut [u8],
) -> WordAnswer
    ensures { WordDecode code word.old marks.now map.old result word.new map.new }
{
    decode(code.into(), word, marks, map).into()
}

// The same with the received word only read: its k message symbols go to the part. Refused, the part stays as it was.
#[unsafe(no_mangle)]
pub extern "C" fn yaxo_word_decode_part(
    code: CodeSetting,
    received: &[u8],
    marks: &[u8],
    part: &mut [u8],
    map: &mut [u8],
) -> WordAnswer
    ensures { WordDecodePart code received.now marks.now part.old map.old result part.new map.new }
{
    decode_part(code.into(), received, marks, part, map).into()
}

// Whether a received word is a codeword as it stands. Answers 0, 1, 2 or 3.
#[unsafe(no_mangle)]
pub extern "C" fn yaxo_word_is_clean(code: CodeSetting, word: &[u8]) -> WordClean
    ensures { WordIsClean code word.now result }
{
    is_clean(code.into(), word).into()
}
