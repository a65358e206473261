// The block interleaver for C, which is shown an answer's number.
ghost use Rattle.std.specs.Prelude.{◌≡◌};
ghost use Rattle.radio.specs.Blocks.{moved_seen, BlockSpread, BlockGather};

use interleave::{BlockError, gather, spread};

// The number of an answer: 0 where the bytes were moved. Each call's answer has a call like this, since the errors have no type in common.
fn moved_number(answer: Result<(), BlockError>) -> u8
    ensures { result ≡ moved_seen answer }
{
    match answer {
        Ok(()) => 0,
        Err(e) => e.number(),
    }
}

// `depth` words of n bytes, end to end, go to their slots. Answers 0, 1 or 2; refused, the slots stay as they were.
#[unsafe(no_mangle)]
pub extern "C" fn yaxo_block_spread(depth: usize, n: usize, words: &[u8], slots: &mut [u8]) -> u8
    ensures { BlockSpread depth n words.now slots.old result slots.new }
{
    moved_number(spread(depth, n, words, slots))
}

// The way back. Answers as `yaxo_block_spread` does; refused, the words stay as they were.
#[unsafe(no_mangle)]
pub extern "C" fn yaxo_block_gather(depth: usize, n: usize, slots: &[u8], words: &mut [u8]) -> u8
    ensures { BlockGather depth n slots.now words.old result words.new }
{
    moved_number(gather(depth, n, slots, words))
}
