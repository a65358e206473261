// Peeling: what takes places out of the power sums of a word, so that the value at one place is left.
// The word code checks every setting before it makes these calls.
ghost use Rattle.std.specs.Prelude.{◌≡◌, ◌<◌, ◌≤◌, length};
ghost use Rattle.decoder.specs.Peeling.{Peeled, PeeledAll};
ghost use Rattle.decoder.specs.Listing.{Inside, Listed, PeeledListed, Distant};

use crate::locate::Places;
use field::lanes::products;
use field::shifts::times;

// The sums without a place of locator x: one less of them counts.
pub fn peel(m: usize, sums: [u8; 16], x: u8) -> [u8; 16]
    ensures { Peeled m x sums result }
{
    let products = products(m, [x; 16], sums);
    let mut rest = products;
    for j in 0..15 {
        rest[j] = products[j] ^ sums[j + 1];
    }
    rest
}

// Puts the flagged places of a word of n into `places`, in order, and gives their number. It asks nothing of the word's locators, so it stands by itself.
pub fn list(n: usize, flags: &[u8], places: &mut [u8; 255]) -> usize
    requires { (n ≤ 255) × (n ≤ length flags.now) }
    ensures { (result ≤ n) × Listed n flags.now result places.new }
{
    let mut count = 0;
    for i in 0..n {
        if flags[i] != 0 {
            places[count] = i as u8;
            count += 1;
        }
    }
    count
}

// The flagged places of a word, in order: the first `count` of `flagged`.
#[derive(Drop)]
pub struct Listing<'a> {
    pub places: &'a Places,
    pub flagged: [u8; 255],
    pub count: usize,
    pub ghost few: { count ≤ places.now.n },
    pub ghost inside: { Inside places.now.n count flagged },
}

impl<'a> Listing<'a> {
    // The listing of the places that these flags name.
    pub fn of(places: &'a Places, flags: &[u8]) -> Listing<'a>
        requires { places.now.n ≤ length flags.now }
        ensures same { result.places.now ≡ places.now }
        ensures listed { Listed places.now.n flags.now result.count result.flagged }
    {
        let mut flagged: [u8; 255] = [0; 255];
        let count = list(places.n, flags, &mut flagged);
        Listing {
            places,
            flagged,
            count,
        }
    }

    // The sums without the listed places, but for the place `skip`, which stays.
    pub fn peel(&self, skip: usize, sums: [u8; 16]) -> [u8; 16]
        ensures { PeeledListed self.now.places.now.m self.now.places.now.n self.now.flagged self.now.count skip sums result }
    {
        let places = self.places;
        let mut rest = sums;
        for place in &self.flagged[..self.count] {
            let i = usize::from(*place);
            if i != skip {
                let peeled = peel(places.m, rest, places.locators[i]);
                rest = peeled;
            }
        }
        rest
    }

    // The product of `start` and the differences of the locator of place p from those of the other listed places.
    pub fn distance(&self, p: usize, start: u8) -> u8
        requires { p < self.now.places.now.n }
        ensures { Distant self.now.places.now.m self.now.places.now.n self.now.flagged self.now.count p start result }
    {
        let places = self.places;
        let mut far = start;
        for place in &self.flagged[..self.count] {
            let i = usize::from(*place);
            if i != p {
                far = times(places.m, far, places.locators[p] ^ places.locators[i]);
            }
        }
        far
    }
}

// The sums without the flagged places of a word.
pub fn peel_all(places: &Places, flags: &[u8], sums: [u8; 16]) -> [u8; 16]
    requires { places.now.n ≤ length flags.now }
    ensures { PeeledAll places.now.m places.now.n flags.now places.now.n sums result }
{
    Listing::of(places, flags).peel(places.n, sums)
}
