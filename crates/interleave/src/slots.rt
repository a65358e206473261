// The slots of one word of a block: byte i of word w stands in slot i * depth + w. A block is read and written one word at a time, so that
// no buffer of the whole block is needed. Each call has other slices, and the depth comes from a frame, so what they ask (`HasWord`) stays in their
// `requires`.
ghost use Rattle.std.specs.Prelude.{length};
ghost use Rattle.algebra.specs.Lists.{Copied};
ghost use Rattle.interleave.specs.Slots.{slot_byte, HasWord, TakesWord, PutsWord};

use buffers::filled;

// Copies word w out of its slots.
fn copy_word(depth: usize, w: usize, slots: &[u8], word: &mut [u8])
    requires { HasWord depth (length word.old) w (length slots.now) }
    ensures { Copied (length word.old) (slot_byte depth w slots.now) word.new }
{
    for (i, byte) in word.iter_mut().enumerate() {
        *byte = slots[i * depth + w];
    }
}

// Word w of n bytes, as the slots have it, in front of an array that holds every word.
pub fn take_word(depth: usize, n: usize, w: usize, slots: &[u8]) -> [u8; 255]
    requires { HasWord depth n w (length slots.now) }
    ensures { TakesWord depth n w slots.now result }
{
    let mut word: [u8; 255] = filled(0);
    copy_word(depth, w, slots, &mut word[..n]);
    word
}

// Copies word w into its slots; the other words' slots stay as they were.
pub fn put_word(depth: usize, w: usize, word: &[u8], slots: &mut [u8])
    requires { HasWord depth (length word.now) w (length slots.old) }
    ensures { PutsWord depth w word.now slots.old slots.new }
{
    for (i, byte) in word.iter().enumerate() {
        slots[i * depth + w] = *byte;
    }
}
