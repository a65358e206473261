// What the program prints: a line for each check, with its name and `ok`, or `WRONG` where an answer is not the paper's. It is written by `io`,
// which rests on the C library's `write` alone; the runtime's printing would rest on two calls of C more.
const STDOUT: i32 = 1;

// Prints the line of one check.
pub fn say(name: &str, ok: bool) {
    io::write_all(STDOUT, name.as_bytes());
    io::write_all(STDOUT, verdict(ok).as_bytes());
}

fn verdict(ok: bool) -> &'static str {
    if ok { " ok\n" } else { " WRONG\n" }
}
