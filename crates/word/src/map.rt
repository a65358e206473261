// Document 02, No. 6: where a word was changed. These are inner calls of `answer`, whose callers check every length first.
ghost use Rattle.std.specs.Prelude.{◌≡◌, ◌≤◌, ◌<◌, length};
ghost use Rattle.word.specs.Map.{change_of, changes};

// 1 where two symbols differ, else 0.
fn change_at(x: u8, y: u8) -> u8
    ensures { (result ≡ change_of x y) × (result < 2) }
{
    u8::from(x != y)
}

// Writes the map of a received word, whose correction is at the front of the work space.
pub fn note_changes(received: &[u8], work: &[u8], map: &mut [u8])
    requires { (length map.old ≡ length received.now) × (length received.now ≤ length work.now) }
    ensures { map.new ≡ changes received.now work.now }
{
    for i in 0..map.len() {
        map[i] = change_at(received[i], work[i]);
    }
}
