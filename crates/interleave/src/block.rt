// The block interleaver: words go in by columns and slots are sent by rows, so that a run of damage falls on many words.
ghost use Rattle.std.specs.Prelude.{◌≡◌, ◌+◌, ◌*◌, ◌≤◌, ◌<◌, length};
ghost use Rattle.interleave.specs.Numbers.{answered, block_number, block_error};
ghost use Rattle.interleave.specs.Block.{block_refusal, transposed, Spread, Gather};
ghost use Rattle.interleave.specs.Rows.{RowsMoved};

// Why a block is refused, in the order of the paper's numbers: depth or n outside the limits, or a buffer that is not of depth * n bytes. Frames
// and replays are refused by errors of their own: each says what its call was lent.
#[derive(Clone, Copy, Debug, PartialEq, Eq)]
pub enum BlockError {
    BadSetting,
    BadLength,
}

impl BlockError {
    // The paper's number.
    pub fn number(self) -> u8
        ensures { result ≡ block_number self }
    {
        match self {
            BlockError::BadSetting => 1,
            BlockError::BadLength => 2,
        }
    }
}

// `depth` words of n bytes, end to end, go to their slots: byte i of word w to slot i * depth + w.
// Refused, the slots stay as they were.
pub fn spread(depth: usize, n: usize, words: &[u8], slots: &mut [u8]) -> Result<(), BlockError>
    ensures { Spread depth n words.now slots.old result slots.new }
{
    check_block(depth, n, words.len(), slots.len())?;
    transpose(depth, n, words, slots);
    Ok(())
}

// The way back: the byte in slot i * depth + w is byte i of word w. Refused, the words stay as they were.
pub fn gather(depth: usize, n: usize, slots: &[u8], words: &mut [u8]) -> Result<(), BlockError>
    ensures { Gather depth n slots.now words.old result words.new }
{
    check_block(depth, n, slots.len(), words.len())?;
    transpose(n, depth, slots, words);
    Ok(())
}

// Whether a block is refused. The limits come first: within them the product fits.
fn check_block(depth: usize, n: usize, source: usize, target: usize) -> Result<(), BlockError>
    ensures { result ≡ answered block_error (block_refusal depth n source target) tt }
{
    if depth < 1 || depth > 16 || n < 3 || n > 255 {
        return Err(BlockError::BadSetting);
    }
    if source != depth * n || target != depth * n {
        return Err(BlockError::BadLength);
    }
    Ok(())
}

// m rows of n bytes become n rows of m, four source rows at a time: each pass over the target then writes four bytes that lie together.
// The step is four rows or one, so the row is counted by hand.
fn transpose(m: usize, n: usize, source: &[u8], target: &mut [u8])
    requires { (0 < m) × (length source.now ≡ m * n) × (length target.old ≡ n * m) }
    ensures { target.new ≡ transposed m n source.now }
{
    let mut row = 0;
    while row < m {
        if m - row < 4 {
            move_rows::<1>(m, n, row, source, target);
            row += 1;
        } else {
            move_rows::<4>(m, n, row, source, target);
            row += 4;
        }
    }
}

// The K rows from `row` on go to their columns; those before it stand in theirs already.
fn move_rows<const K: usize>(m: usize, n: usize, row: usize, source: &[u8], target: &mut [u8])
    requires { (row + K ≤ m) × (length source.now ≡ m * n) × RowsMoved m n row source.now target.old }
    ensures { RowsMoved m n (row + K) source.now target.new }
{
    for i in 0..n {
        for k in 0..K {
            target[i * m + row + k] = source[(row + k) * n + i];
        }
    }
}
