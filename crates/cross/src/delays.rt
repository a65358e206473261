// The delays of a cross line are those of a delay line of 28 branches and unit 4, a frame being 28 of its steps. Sender and receiver differ only
// in which byte has which ring, and marks go through rings of their own as bytes do.
ghost use Rattle.std.specs.Prelude.{◌≡◌, length};
ghost use Rattle.cross.specs.Cross.{due, stored};

use crate::position::frames_of_a_cycle;
use rings::run;

// Every byte goes into its ring, and what is due at this position takes its place. With `back` byte i has the ring of 27 - i units.
pub fn hold_back(memory: &mut [u8], back: bool, position: usize, bytes: &mut [u8])
    requires { (length memory.old ≡ 1512) × (length bytes.old ≡ 28) }
    ensures { (memory.new ≡ stored back position memory.old bytes.old) × (bytes.new ≡ due back position memory.old bytes.old) }
{
    let frames = frames_of_a_cycle();
    run(
        28,
        4,
        back,
        frames * 28,
        position % frames * 28,
        memory,
        bytes,
    );
}
