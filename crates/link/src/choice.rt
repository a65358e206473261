// Which of two copies of a frame is used: document 02, No. 1, Two masts. Only their answers are looked at.
ghost use Rattle.std.specs.Prelude.{◌≡◌, ◌≤◌};
ghost use Rattle.link.specs.Masts.{damage_of, damage, Chooses};

use frame::{ReceiveError, Received};
use word::Figures;

// The mast whose copy is used.
#[derive(Clone, Copy, Debug, PartialEq, Eq)]
pub enum Mast {
    First,
    Second,
}

// The copy that is used, as its own call answers it.
#[derive(Clone, Copy)]
pub struct Chosen {
    pub mast: Mast,
    pub copy: Received,
}

// Why neither copy is used: both are refused, and the first's reason stands for both, or they are two frames.
#[derive(Clone, Copy, Debug, PartialEq, Eq)]
pub enum MastsError {
    Refused(ReceiveError),
    Differ,
}

// 2e + f of a word: at most three times the largest number of 16 bits, so that sixteen of them fit 32 bits.
fn damage_of(found: Figures) -> u32
    ensures { (result ≡ damage_of found) × (result ≤ 196605) }
{
    2 * u32::from(found.errors) + u32::from(found.marked)
}

// 2e + f, summed over a copy's words. Words that a frame does not have add nothing.
fn damage_in(figures: [Figures; 16]) -> u32
    ensures { result ≡ damage figures }
{
    let mut sum: u32 = 0;
    for found in &figures {
        sum += damage_of(*found);
    }
    sum
}

// The answer of two copies that are both accepted. Where their sequence numbers differ they are two frames, and nobody knows which one was
// meant.
fn better(first: Received, second: Received) -> Result<Chosen, MastsError>
    ensures { Chooses (Ok first) (Ok second) result }
{
    if first.sequence != second.sequence {
        return Err(MastsError::Differ);
    }
    if damage_in(second.figures) < damage_in(first.figures) {
        return Ok(Chosen {
            mast: Mast::Second,
            copy: second,
        });
    }
    Ok(Chosen {
        mast: Mast::First,
        copy: first,
    })
}

// The answer of two copies. A refused one never takes the other's frame away.
pub fn choose(
    first: Result<Received, ReceiveError>,
    second: Result<Received, ReceiveError>,
) -> Result<Chosen, MastsError>
    ensures { Chooses first second result }
{
    match (first, second) {
        (Ok(one), Ok(other)) => better(one, other),
        (Ok(one), Err(_)) => Ok(Chosen {
            mast: Mast::First,
            copy: one,
        }),
        (Err(_), Ok(other)) => Ok(Chosen {
            mast: Mast::Second,
            copy: other,
        }),
        (Err(reason), Err(_)) => Err(MastsError::Refused(reason)),
    }
}
