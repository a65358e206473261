// Runs the paper's worked table and its limits: document 01, section Worked table, and the record's memory: document 02, No. 7. What is
// proved of them stands in specs/.
// It reads nothing, and prints a line for each check: its name and `ok`, or `WRONG` where an answer is not the paper's.
#![tactic(auto)]

mod expect;
mod heard;
mod late;
mod limits;
mod reach;
mod say;
mod slots;
mod table;

fn main() {
    table::say_code();
    table::say_link();
    limits::say_settings();
    limits::say_words();
    limits::say_messages();
    reach::say_reach();
    late::say_late();
}
