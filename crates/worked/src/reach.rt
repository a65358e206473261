// How far the decoder reaches in the longest word with the most check symbols: n = 255, r = 16.
ghost use Rattle.std.specs.Prelude.{◌≡◌, ◌≤◌, length};

use crate::expect::{Outcome, decodes, decodes_part, done, lost, setting};
use crate::say::say;
use word::{DecodeError, Setting};

// What that word bears.
pub fn say_reach() {
    // Catches a setting of 255 that is refused, and a codeword that is changed.
    say(
        "n 255 stands",
        word_answers(0, 0, done(0, 0, 0), sent(), [0; 255]),
    );
    // Catches a decoder that stops short of r / 2 wrong symbols, check symbols among them.
    say(
        "8 wrong come back",
        word_answers(8, 0, done(8, 0, 24), sent(), marked(8)),
    );
    // Catches a word beyond reach that is accepted, or written before it is refused. No codeword is within 8 places of this one.
    say(
        "9 wrong refused 4",
        word_answers(9, 0, lost(), received(9), [0; 255]),
    );
    // Catches a decoder that stops short of r marked symbols.
    say(
        "16 marked come back",
        word_answers(16, 16, done(0, 16, 48), sent(), marked(16)),
    );
    // Catches a map that has every mark: half of the marked symbols are right here.
    say(
        "right marks not mapped",
        word_answers(8, 16, done(0, 16, 24), sent(), marked(8)),
    );
    // Catches a part that gets anything but the corrected word's message.
    say(
        "part gets the message",
        part_answers(8, done(8, 0, 24), message(), marked(8)),
    );
    // Catches a part that is written though the word is refused.
    say(
        "part refused 4 stays",
        part_answers(9, lost(), [9; 239], [0; 255]),
    );
    // Catches a part that is not of k symbols and is filled in front, or beyond its end.
    say("short part refused 2", short_part());
}

fn longest() -> Setting {
    setting(8, 255, 16, 0)
}

// A message that has no symbol twice: symbol i is i.
fn message() -> [u8; 239] {
    let mut symbols = [0u8; 239];
    for (i, symbol) in symbols.iter_mut().enumerate() {
        *symbol = i as u8;
    }
    symbols
}

// The codeword of that message.
fn sent() -> [u8; 255] {
    let message = message();
    let mut symbols = [0u8; 255];
    let _ = word::encode(longest(), &message, &mut symbols);
    symbols
}

// The word with x added at `count` places, each 15 before the next, the last of them the word's last.
fn struck(word: [u8; 255], count: usize, x: u8) -> [u8; 255]
    requires { count ≤ 16 }
{
    let mut symbols = word;
    for i in 0..count {
        symbols[254 - 15 * i] ^= x;
    }
    symbols
}

// The codeword with so many wrong symbols, three bits in each.
fn received(count: usize) -> [u8; 255]
    requires { count ≤ 16 }
{
    struck(sent(), count, 7)
}

// Marks at the same places.
fn marked(count: usize) -> [u8; 255]
    requires { count ≤ 16 }
{
    struck([0; 255], count, 1)
}

// Whether the codeword with so many wrong and so many marked symbols has this outcome, and is this word afterwards, with this map.
fn word_answers(
    wrong: usize,
    marks: usize,
    wanted: Outcome,
    after: [u8; 255],
    changed: [u8; 255],
) -> bool
    requires { (wrong ≤ 16) × (marks ≤ 16) }
{
    let mut symbols = received(wrong);
    let marks = marked(marks);
    let mut map = [9u8; 255];
    decodes(
        longest(),
        &mut symbols,
        &marks,
        &mut map,
        wanted,
        &after,
        &changed,
    )
}

// The same of decoding into a part, unmarked.
fn part_answers(wrong: usize, wanted: Outcome, after: [u8; 239], changed: [u8; 255]) -> bool
    requires { wrong ≤ 16 }
{
    let symbols = received(wrong);
    let marks = [0u8; 255];
    let mut part = [9u8; 239];
    let mut map = [9u8; 255];
    decodes_part(
        longest(),
        &symbols,
        &marks,
        &mut part,
        &mut map,
        wanted,
        &after,
        &changed,
    )
}

fn short_part() -> bool {
    let symbols = sent();
    let marks = [0u8; 255];
    let mut part = [9u8; 238];
    let mut map = [9u8; 255];
    let after = [9u8; 238];
    let old = [9u8; 255];
    decodes_part(
        longest(),
        &symbols,
        &marks,
        &mut part,
        &mut map,
        Err(DecodeError::BadLength),
        &after,
        &old,
    )
}
