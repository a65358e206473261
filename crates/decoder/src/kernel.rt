// The error locator: a vector that is orthogonal to every window of the power sums, by elimination without division.
// There are d vectors of d coefficients, and flags for those that are alive. Each window costs at most one vector its life, so with one vector
// more than windows one is left.
ghost use Rattle.std.specs.Prelude.{◌≡◌, ◌+◌, ◌*◌, ◌<◌, ◌≤◌, length, replicate, true, MatchOption};
ghost use Rattle.algebra.specs.Sets.{count};
ghost use Rattle.algebra.specs.Tests.{at};
ghost use Rattle.algebra.specs.Lists.{Filled};
ghost use Rattle.decoder.specs.Rows.{row, row_dot, Combined};
ghost use Rattle.decoder.specs.Elimination.{Alive, living, Units, Eliminated, Pivot, Clearing, KernelVector};

use field::lanes::products;

// Sixteen numbers from b on.
fn lanes(v: &[u8], b: usize) -> [u8; 16]
    requires { b + 16 ≤ length v.now }
    ensures { Filled 16 (row v.now b) 16 result }
{
    let mut r = [0; 16];
    r.copy_from_slice(&v[b..b + 16]);
    r
}

// A window: d of the sums from the j-th on, in the field that m names. Room behind the sums lets sixteen be read from every window on.
#[derive(Drop)]
struct Window<'a> {
    m: usize,
    d: usize,
    sums: &'a [u8; 24],
    j: usize,
    ghost few: { d ≤ 9 },
    ghost near: { j ≤ 8 },
}

impl<'a> Window<'a> {
    // The row at b times the window: d products.
    fn dot(&self, rows: &[u8; 88], b: usize) -> u8
        requires { b + 16 ≤ 88 }
        ensures { result ≡ row_dot self.now.m self.now.d rows.now b self.now.sums.now self.now.j }
    {
        let sums = self.sums;
        let products = products(self.m, lanes(rows, b), lanes(sums, self.j));
        let mut sum = 0;
        for x in &products[..self.d] {
            sum ^= *x;
        }
        sum
    }

    // Puts x times the row at b, plus y times the row at c, in the place of the row at b.
    fn combine(&self, rows: &mut [u8; 88], b: usize, c: usize, x: u8, y: u8)
        requires { (b + 16 ≤ 88) × (c + 16 ≤ 88) }
        ensures { Combined self.now.m b c self.now.d x y rows.old rows.new }
    {
        let own = products(self.m, [x; 16], lanes(rows, b));
        let other = products(self.m, [y; 16], lanes(rows, c));
        for l in 0..self.d {
            rows[b + l] = own[l] ^ other[l];
        }
    }
}

// The vectors of an elimination, as rows of one array at 0, 9, 18, .., and which of them are alive. The rows stand 9 apart whatever d is, since
// there are at most 9 of them, and 16 numbers can be read from each.
#[derive(Drop)]
struct Vectors {
    rows: [u8; 88],
    alive: [bool; 9],
}

impl Vectors {
    // The unit vectors, 1 on the diagonal and 0 elsewhere, all alive.
    fn units() -> Vectors
        ensures rows { Units 9 result.rows }
        ensures alive { result.alive ≡ replicate 9 true }
    {
        let mut rows = [0; 88];
        for s in 0..9 {
            rows[s * 10] = 1;
        }
        Vectors {
            rows,
            alive: [true; 9],
        }
    }

    // The first vector alive that is not orthogonal to the window, if there is one.
    fn pivot(&self, window: &Window) -> Option<usize>
        ensures { MatchOption
            result
            (Pivot window.now.m window.now.d window.now.sums.now window.now.j self.now.rows self.now.alive window.now.d)
            (λ p. (p < window.now.d) × Pivot window.now.m window.now.d window.now.sums.now window.now.j self.now.rows self.now.alive p) }
    {
        for s in 0..window.d {
            if self.alive[s] {
                let y = window.dot(&self.rows, s * 9);
                if field::shifts::low(window.m, y) != 0 {
                    return Some(s);
                }
            }
        }
        None
    }

    // Adds so much of the pivot p to each vector alive behind it that the sum is orthogonal to the window. Both are multiplied and nothing
    // is divided: one that is orthogonal already is only multiplied by x, which is not zero.
    fn clear(&mut self, window: &Window, p: usize)
        requires pivot { p < window.now.d }
        requires clearing { Clearing
            window.now.m
            window.now.d
            window.now.sums.now
            window.now.j
            p
            (row_dot window.now.m window.now.d self.old.rows (p * 9) window.now.sums.now window.now.j)
            (p + 1)
            self.old.rows
            self.old.alive }
        ensures { Eliminated window.now.m window.now.d window.now.sums.now (window.now.j + 1) self.new.rows self.new.alive }
    {
        let x = window.dot(&self.rows, p * 9);
        for s in p + 1..window.d {
            if self.alive[s] {
                let y = window.dot(&self.rows, s * 9);
                window.combine(&mut self.rows, s * 9, p * 9, x, y);
            }
        }
    }

    // Makes each vector alive orthogonal to the window; the one that serves as the pivot dies.
    fn eliminate(&mut self, window: &Window)
        requires { Eliminated window.now.m window.now.d window.now.sums.now window.now.j self.old.rows self.old.alive }
        ensures { Eliminated window.now.m window.now.d window.now.sums.now (window.now.j + 1) self.new.rows self.new.alive }
    {
        if let Some(p) = self.pivot(window) {
            self.alive[p] = false;
            self.clear(window, p);
        }
    }

    // The first of d vectors that is alive, if there is one.
    fn first(&self, d: usize) -> Option<usize>
        requires { d ≤ 9 }
        ensures { MatchOption result (count (living self.now.alive) d ≡ 0) (λ s. (s < d) × Alive self.now.alive s) }
    {
        for s in 0..d {
            if self.alive[s] {
                return Some(s);
            }
        }
        None
    }
}

// The sums with room behind them, so that sixteen numbers stand from every window on. Three lines, as `checks::left::padded`, with another promise.
fn lengthened(sums: [u8; 16]) -> [u8; 24]
    ensures { Filled 24 (at sums) 16 result }
{
    let mut r = [0; 24];
    r[..16].copy_from_slice(&sums);
    r
}

// A vector of t + 1 coefficients, the lowest first, that is not zero and orthogonal to the first t windows of sums. Where sums are the
// power sums of at most t errors, their locators are roots of the polynomial with these coefficients.
pub fn kernel(m: usize, t: usize, sums: [u8; 16]) -> [u8; 16]
    requires { t ≤ 8 }
    ensures { KernelVector m t sums result }
{
    let long = lengthened(sums);
    let d = t + 1;
    let mut vectors = Vectors::units();
    for j in 0..t {
        let window = Window {
            m,
            d,
            sums: &long,
            j,
        };
        vectors.eliminate(&window);
    }
    let s = vectors.first(d).unwrap();
    lanes(&vectors.rows, s * 9)
}
