// How one sequence number stands to another: document 01, section Receiver's record. Numbers go round at 65536, and their wrapped difference
// alone decides; what a receiver makes of it is the record's.
ghost use Rattle.std.specs.Prelude.{◌≡◌};
ghost use Rattle.record.specs.Order.{lead, lag, compared};

// A number is the other one again, ahead of it by 1 to 32767, or behind it. The standard ordering says less of numbers that go round: what is
// ahead of a number ahead may be behind.
#[derive(Clone, Copy, Debug, PartialEq, Eq)]
pub enum Order {
    Same,
    Ahead,
    Behind,
}

// The new number minus the last, wrapped at 65536. A plain comparison would take 2 for older than 65535.
pub fn lead_of(new: u16, last: u16) -> u16
    ensures { result ≡ lead new last }
{
    new.wrapping_sub(last)
}

// The last number minus the new: how far behind a number is that is not ahead.
pub fn lag_of(new: u16, last: u16) -> u16
    ensures { result ≡ lag new last }
{
    lead_of(new, last).wrapping_neg()
}

// How the new number stands to the last.
#[tactic(auto, unfolding(crate::specs::Order::compared))]
pub fn compare(new: u16, last: u16) -> Order
    ensures { result ≡ compared new last }
{
    match lead_of(new, last) {
        0 => Order::Same,
        1..=32767 => Order::Ahead,
        _ => Order::Behind,
    }
}
