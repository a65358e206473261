// The values at the flagged places of a word, and the word and its power sums without them.
ghost use Rattle.std.specs.Prelude.{◌≡◌, ◌<◌, ◌≤◌, length};
ghost use Rattle.decoder.specs.Corrections.{Weighs, ErrorListed, TakenOut, Corrected};

use crate::locate::Places;
use crate::peel::Listing;
use field::shifts::{inverse_at, times};

// The weight of a place of locator x in the first power sum of a code whose roots begin at a^b: x^b.
fn weight(b: usize, x: u8) -> u8
    requires { b ≤ 1 }
    ensures { Weighs b x result }
{
    if b == 0 {
        return 1;
    }
    x
}

// The error at place p, where all errors are at listed places: what is left of the power sums when the others are peeled, by the
// distance of p from them.
pub fn error_value(listing: &Listing, b: usize, sums: [u8; 16], p: usize) -> u8
    requires { (p < listing.now.places.now.n) × (b ≤ 1) }
    ensures { ErrorListed listing.now.places.now.m listing.now.places.now.n b listing.now.flagged listing.now.count sums p result }
{
    let places = listing.places;
    let rest = listing.peel(p, sums);
    let far = listing.distance(p, weight(b, places.locators[p]));
    times(places.m, rest[0], inverse_at(places.m, far))
}

// Takes those of one symbol out of the power sums: y, y x, y x^2, ..
fn take_out(m: usize, rest: &mut [u8; 16], y: u8, x: u8)
    ensures size { length rest.new ≡ 16 }
    ensures taken { TakenOut m rest.old y x rest.new }
{
    let mut term = y;
    for sum in rest.iter_mut() {
        *sum ^= term;
        term = times(m, term, x);
    }
}

// Takes the errors out of the flagged places of a word with these power sums, and gives the power sums of what it leaves: they tell
// whether that is a codeword, with no second pass over the word.
pub fn correct(places: &Places, b: usize, flags: &[u8], sums: [u8; 16], word: &mut [u8]) -> [u8; 16]
    requires { (places.now.n ≤ length flags.now) × (length word.old ≡ places.now.n) × (b ≤ 1) }
    ensures { Corrected places.now.m places.now.n b flags.now sums word.old word.new result }
{
    let listing = Listing::of(places, flags);
    let mut rest = sums;
    for i in 0..places.n {
        if flags[i] != 0 {
            let x = places.locators[i];
            let e = error_value(&listing, b, sums, i);
            word[i] ^= e;
            take_out(places.m, &mut rest, times(places.m, e, weight(b, x)), x);
        }
    }
    rest
}
