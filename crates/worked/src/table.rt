// The worked table, P1 to P13, run through the calls.
use crate::expect::{Outcome, decodes, done, encodes, lost, setting};
use crate::heard::{is_newer, is_older};
use crate::say::say;
use crate::slots::comes_back;
use word::Setting;

// The items of the field and of the word code.
pub fn say_code() {
    // Catches a product at m = 3 that is not reduced by 11.
    say("P1", multiplies(3, 2, 5, 1));
    // Catches a product at m = 8 that is not reduced by 285.
    say("P2", multiplies(8, 128, 2, 29));
    // Catches symbols in 002's order, lowest power first, and roots from a^0 where b = 1.
    say(
        "P3",
        encodes_to(example(), [7, 3, 2], [7, 3, 2, 5, 6, 4, 1]),
    );
    // Catches a decoder that mends one wrong symbol only, bits counted as symbols, and a map in another order than the word.
    say("P4", mends_example());
    // Catches roots from a^1 where b = 0.
    say("P5", encodes_to(code_s(), [1], [1, 3, 2]));
    // Catches an error in the first place, the highest power, that is put elsewhere.
    say(
        "P6",
        decodes_s([0, 3, 2], [0, 0, 0], done(1, 0, 1), [1, 3, 2], [1, 0, 0]),
    );
    // Catches a wrong check symbol that is left as it came, or not mapped.
    say(
        "P7",
        decodes_s([0, 0, 2], [0, 0, 0], done(1, 0, 1), [0, 0, 0], [0, 0, 1]),
    );
    // Catches marks that are not used: the word of P7, with marks, is another codeword's. Catches a map of unmarked changes only.
    say(
        "P8",
        decodes_s([0, 0, 2], [1, 1, 0], done(0, 2, 3), [1, 3, 2], [1, 1, 0]),
    );
    // Catches an error place beyond n of a shortened word, a refused word that is written, and its map that is left as it was.
    say(
        "P9",
        decodes_s([0, 1, 2], [0, 0, 0], lost(), [0, 1, 2], [0, 0, 0]),
    );
    // Catches a marked symbol counted as free because it was right: three marks are more than r. Catches a map of the marks.
    say(
        "P10",
        decodes_s([1, 3, 2], [1, 1, 1], lost(), [1, 3, 2], [0, 0, 0]),
    );
}

// The items of the interleavers and of the record.
pub fn say_link() {
    // Catches an interleaver that copies, and one that sends columns.
    say("P11", spreads());
    // Catches a branch that holds back too long or not at all, and a fresh receiver whose bytes are not marked.
    say("P12", comes_back());
    // Catches newer decided by plain comparison.
    say("P13", newer_by_difference());
}

// Whether a product is z.
fn multiplies(m: usize, x: u8, y: u8, z: u8) -> bool {
    field::product(m, x, y) == Ok(z)
}

// The example of 002.
fn example() -> Setting {
    setting(3, 7, 4, 1)
}

// The paper's code S.
fn code_s() -> Setting {
    setting(8, 3, 2, 0)
}

// Whether a code makes this word of a message.
fn encodes_to<const K: usize, const N: usize>(
    s: Setting,
    message: [u8; K],
    after: [u8; N],
) -> bool {
    let mut symbols = [0u8; N];
    encodes(s, &message, &mut symbols, Ok(()), &after)
}

// Whether a code has this outcome for a received word, and leaves these symbols in it and this map, whose old marks must not show.
fn decodes_to<const N: usize>(
    s: Setting,
    received: [u8; N],
    marks: [u8; N],
    wanted: Outcome,
    after: [u8; N],
    changed: [u8; N],
) -> bool {
    let mut symbols = received;
    let mut map = [9u8; N];
    decodes(s, &mut symbols, &marks, &mut map, wanted, &after, &changed)
}

fn mends_example() -> bool {
    let received = [7, 3, 5, 1, 6, 4, 1];
    let sent = [7, 3, 2, 5, 6, 4, 1];
    decodes_to(
        example(),
        received,
        [0; 7],
        done(2, 0, 4),
        sent,
        [0, 0, 1, 1, 0, 0, 0],
    )
}

// The same of a word of code S.
fn decodes_s(
    received: [u8; 3],
    marks: [u8; 3],
    wanted: Outcome,
    after: [u8; 3],
    changed: [u8; 3],
) -> bool {
    decodes_to(code_s(), received, marks, wanted, after, changed)
}

fn spreads() -> bool {
    let words = [1u8, 3, 2, 2, 6, 4];
    let mut slots = [0u8; 6];
    let after = [1u8, 2, 3, 6, 2, 4];
    interleave::spread(2, 3, &words, &mut slots) == Ok(()) && slots == after
}

fn newer_by_difference() -> bool {
    is_newer(65535, 2) && is_newer(0, 32767) && is_older(0, 32768)
}
