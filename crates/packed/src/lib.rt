// Sixteen symbols in two words of 64 bits: what a register and a row of its table are made of. A turn moves all of them at once; byte by byte
// in an array they would be stored and read back in parts at each turn. They are inner calls of the word code.
#![tactic(auto)]

pub mod bytes;
pub mod factor;
pub mod pair;
