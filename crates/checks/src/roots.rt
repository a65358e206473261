// The first of a code's roots.
ghost use Rattle.std.specs.Prelude.{◌≡◌, ◌≤◌};
ghost use Rattle.checks.specs.Roots.{root};

use field::shifts::double;

// a^b: no code starts beyond b = 1, so there is no table to be read.
pub fn first_root(m: usize, b: usize) -> u8
    requires { b ≤ 1 }
    ensures { result ≡ root m b 0 }
{
    if b == 0 {
        return 1;
    }
    double(m, 1)
}
