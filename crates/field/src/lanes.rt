// Sixteen products side by side: what the loops over power sums, registers and rows are made of. The lanes become vector code.
ghost use Rattle.field.specs.Lanes.{Products};

use crate::shifts::times;

// The product of each two entries.
pub fn products(m: usize, x: [u8; 16], y: [u8; 16]) -> [u8; 16]
    ensures { Products m x y result }
{
    if m == 3 {
        return by_lanes::<3>(x, y);
    }
    by_lanes::<8>(x, y)
}

// The same with the field in the type: with an m that is known only in the run the compiler leaves a call in the loop, and it takes five
// times as long.
fn by_lanes<const M: usize>(x: [u8; 16], y: [u8; 16]) -> [u8; 16]
    ensures { Products M x y result }
{
    let mut products: [u8; 16] = [0; 16];
    for i in 0..16 {
        products[i] = times(M, x[i], y[i]);
    }
    products
}
