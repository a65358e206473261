// The memory of a record: which of the 32 numbers just below the last newest one were accepted (document 02, No. 7). It is one number of
// 32 bits, and the bit of weight 2^(d-1) is 1 where the number at distance d below the last was seen. The calls here are the record's own,
// which knows how far a frame lies behind; what they ask is in their `requires`.
ghost use Rattle.std.specs.Prelude.{◌≡◌, ◌≤◌};
ghost use Rattle.record.specs.Memory.{seen_at, slid, seeing, unseen_in};

// Whether the number at this distance was seen.
#[tactic(auto, unfolding(crate::specs::Memory::seen_at))]
pub fn seen_at(memory: u32, distance: u16) -> bool
    requires { (1 ≤ distance) × (distance ≤ 32) }
    ensures { result ≡ seen_at memory distance }
{
    (memory >> (distance - 1)) % 2 == 1
}

// The memory once the number at this distance was seen.
#[tactic(auto, using(crate::specs::Memory::Laws::seen_by))]
pub fn see(memory: u32, distance: u16) -> u32
    requires { (1 ≤ distance) × (distance ≤ 32) }
    ensures { result ≡ seeing memory distance }
{
    memory | (1 << (distance - 1))
}

// The memory once the last number has moved on by this step: what was the last is seen, and what is now farther than 32 is forgotten.
#[tactic(auto, using(crate::specs::Memory::Laws::slid_by, crate::specs::Memory::Laws::slid_past))]
pub fn slide(memory: u32, step: u16) -> u32
    requires { 1 ≤ step }
    ensures { result ≡ slid memory step }
{
    if step > 32 {
        return 0;
    }
    ((memory << 1) | 1) << (step - 1)
}

// How many of the 32 are unseen.
#[tactic(auto, using(crate::specs::Memory::Laws::zeros_unseen))]
pub fn count_unseen(memory: u32) -> u32
    ensures { result ≡ unseen_in memory }
{
    memory.count_zeros()
}
