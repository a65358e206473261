// Where errors may stand: the locator of every place, and the places where a locator polynomial vanishes.
ghost use Rattle.std.specs.Prelude.{◌≡◌, ◌≤◌, length};
ghost use Rattle.algebra.specs.Tests.{at};
ghost use Rattle.algebra.specs.Lists.{Filled};
ghost use Rattle.algebra.specs.Polynomials.{ev};
ghost use Rattle.field.proofs.Elements.{K};
ghost use Rattle.decoder.specs.Places.{Locators};
ghost use Rattle.decoder.specs.Candidates.{flag_of, raised_at, Candidates};

use field::shifts::{double, low, times};

// The places of a word of n symbols in the field that m names, and the locator of each.
#[derive(Drop)]
pub struct Places {
    pub m: usize,
    pub n: usize,
    pub locators: [u8; 255],
    pub ghost short: { n ≤ 255 },
    pub ghost located: { Locators m n locators },
}

impl Places {
    // The last place has locator 1, and each place before it the double of the one behind.
    pub fn of(m: usize, n: usize) -> Places
        requires { n ≤ 255 }
        ensures { (result.m ≡ m) × (result.n ≡ n) }
    {
        let mut locators: [u8; 255] = [0; 255];
        let mut x: u8 = 1;
        for i in (0..n).rev() {
            locators[i] = x;
            x = double(m, x);
        }
        Places { m, n, locators }
    }

    // One turn of Horner's rule at each place's locator.
    fn raise(&self, values: &[u8; 255], symbol: u8) -> [u8; 255]
        ensures { Filled 255 (raised_at self.now.m symbol values.now self.now.locators) self.now.n result }
    {
        if self.m == 3 {
            raise_by::<3>(self.n, values, &self.locators, symbol)
        } else {
            raise_by::<8>(self.n, values, &self.locators, symbol)
        }
    }

    // The values of the polynomial at the locators: by turns over all places, since that is vector code.
    fn values(&self, v: &[u8; 16], d: usize) -> [u8; 255]
        requires { d ≤ 9 }
        ensures { Filled 255 (λ i. ev (K self.now.m) d (λ l. at v.now l) (at self.now.locators i)) self.now.n result }
    {
        let mut sums: [u8; 255] = [0; 255];
        for l in (0..d).rev() {
            let next = self.raise(&sums, v[l]);
            sums = next;
        }
        sums
    }

    // The places where an error can stand: a flag for each of the n places, and 0 from n on.
    pub fn candidates(&self, marks: &[u8], v: &[u8; 16], d: usize) -> [u8; 255]
        requires { (length marks.now ≡ self.now.n) × (d ≤ 9) }
        ensures { Candidates self.now.m self.now.n marks.now v.now d result }
    {
        let ys = self.values(v, d);
        let mut flags: [u8; 255] = [0; 255];
        for i in 0..self.n {
            flags[i] = candidate(self.m, marks[i], ys[i]);
        }
        flags
    }
}

// One turn of Horner's rule at each of the first n points, in the field of 2^M elements. M is known before the run, so the loop is vector code.
fn raise_by<const M: usize>(
    n: usize,
    values: &[u8; 255],
    points: &[u8; 255],
    symbol: u8,
) -> [u8; 255]
    requires { n ≤ 255 }
    ensures { Filled 255 (raised_at M symbol values.now points.now) n result }
{
    let mut next = [0; 255];
    for i in 0..n {
        next[i] = times(M, values[i], points[i]) ^ symbol;
    }
    next
}

// 1 where a place is marked or the polynomial's value y there is the field's zero, else 0.
fn candidate(m: usize, mark: u8, y: u8) -> u8
    ensures { result ≡ flag_of m mark y }
{
    u8::from(mark != 0 || low(m, y) == 0)
}
