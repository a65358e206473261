// Rings of bytes end to end in one lent memory, the shortest first: what every delay is made of, also the cross line's.
#![tactic(auto)]

ghost use Rattle.std.specs.Prelude.{◌≡◌, ℕ, ◌+◌, ◌-◌, ◌%◌, ◌≤◌, ◌<◌, length};
ghost use Rattle.rings.specs.Rings.{RingFits, order};
ghost use Rattle.rings.specs.Run.{RunFits, ran, run};
ghost use Rattle.rings.specs.Branch.{lent, walked};

// The cell of a ring after this one. After its last comes its first.
fn next_cell(cell: usize, first: usize, end: usize) -> usize
    requires { (first ≤ cell) × (cell < end) }
    ensures { result ≡ first + (cell + 1 - first) % (end - first) }
{
    let after = cell + 1;
    if after == end {
        return first;
    }
    after
}

// The bytes of one branch, every `branches`-th from byte `first` on, go through its ring of k units: each changes places with the cell of its
// turn, the first of them with that of turn q. Where k is 0 they stay. A division finds the first cell, and the others follow from it.
// The steps are counted by hand: by `step_by` and `swap` a run of 3264 bytes took 4.02 µs and not 3.08, and a receiver's 10.06 µs and not 6.19.
fn walk(
    memory: &mut [u8],
    unit: usize,
    k: usize,
    q: usize,
    branches: usize,
    first: usize,
    bytes: &mut [u8],
)
    requires { (first < branches) × (branches ≤ 32) × RingFits unit k (length memory.old) }
    ensures { lent memory.new bytes.new ≡ walked unit k q branches first memory.old bytes.old }
{
    if k == 0 {
        return;
    }
    let low = k * (k - 1) / 2 * unit;
    let end = low + k * unit;
    let mut cell = low + q % (k * unit);
    let mut i = first;
    while i < bytes.len() {
        let byte = bytes[i];
        let out = memory[cell];
        memory[cell] = byte;
        bytes[i] = out;
        cell = next_cell(cell, low, end);
        i += branches;
    }
}

// The units of a branch's ring: the receiver, with `back`, holds back longest where the sender held back least. A flag tells the two orders apart:
// as a closure an order would bring a promise of its own into every contract on the way, and there is no third.
fn ring_of(branch: usize, branches: usize, back: bool) -> usize
    requires { branch < branches }
    ensures { result ≡ order back branches branch }
{
    if back {
        return branches - 1 - branch;
    }
    branch
}

// The position after `count` steps. After the last comes 0. The sum is formed only where it is known to fit.
fn position_after(start: usize, count: usize, positions: usize) -> usize
    requires { start < positions }
    ensures { result ≡ (start + count) % positions }
{
    let left = positions - start;
    if count < left {
        return start + count;
    }
    (count - left) % positions
}

// A step for each of the bytes, in order, from a position on; what leaves at a step takes the place of what went in. Answers the position
// after them. Marks run as bytes do. Rings share no cells, so the branches take their steps one after the other, and only those that the run meets.
// The numbers stand one by one: no caller has all of them together, so a struct of them would be made at each call for this function alone.
pub fn run(
    branches: usize,
    unit: usize,
    back: bool,
    positions: usize,
    start: usize,
    memory: &mut [u8],
    bytes: &mut [u8],
) -> usize
    requires { RunFits branches unit positions start (length memory.old) }
    ensures { ran bytes.new memory.new result ≡ run (order back branches) branches unit positions start memory.old bytes.old }
{
    let met = branches.min(bytes.len());
    let mut branch = start % branches;
    let mut q = start / branches;
    for i in 0..met {
        let k = ring_of(branch, branches, back);
        walk(memory, unit, k, q, branches, i, bytes);
        branch += 1;
        if branch == branches {
            branch = 0;
            q += 1;
        }
    }
    position_after(start, bytes.len(), positions)
}
