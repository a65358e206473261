// What the sender and the receiver of a delay line share: the setting with the position, its refusals, and the steps of a run.
ghost use Rattle.std.specs.Prelude.{◌≡◌, ◌≤◌, length};
ghost use Rattle.rings.specs.Run.{ran};
ghost use Rattle.interleave.specs.Numbers.{answered, line_number, line_error};
ghost use Rattle.interleave.specs.Line.{common, period};
ghost use Rattle.interleave.specs.Setting.{line_refusal, receiver_refusal, line_at, line_run, Fine};

use rings::run;

// A line's setting and its position, the number of steps so far modulo the line's period. Sender and receiver have one each.
#[derive(Clone, Copy)]
pub struct Line {
    pub branches: usize,
    pub unit: usize,
    pub n: usize,
    pub position: usize,
}

// Why a call on a line is refused, in the order of the paper's numbers: the setting or the position, a length, or a mark above 1.
#[derive(Clone, Copy, Debug, PartialEq, Eq)]
pub enum LineError {
    BadSetting,
    BadLength,
    BadMark,
}

impl LineError {
    // The paper's number.
    pub fn number(self) -> u8
        ensures { result ≡ line_number self }
    {
        match self {
            LineError::BadSetting => 1,
            LineError::BadLength => 2,
            LineError::BadMark => 3,
        }
    }
}

// What a step of the sender answers: the byte that leaves, and the line for the next step.
#[derive(Clone, Copy)]
pub struct Sent {
    pub byte: u8,
    pub line: Line,
}

// What a step of the receiver answers: the byte and the mark that leave, and the line for the next step.
#[derive(Clone, Copy)]
pub struct Received {
    pub byte: u8,
    pub mark: u8,
    pub line: Line,
}

// The least number that each of 1 to branches - 1 divides. Arms, and no table: a table would be laid out anew at each call. Each number has
// its own arm, so that the compiler makes one load of them all.
#[tactic(auto, unfolding(crate::specs::Line::common))]
fn common(branches: usize) -> usize
    ensures { result ≡ common branches }
{
    match branches {
        0 => 1,
        1 => 1,
        2 => 1,
        3 => 2,
        4 => 6,
        5 => 12,
        6 => 60,
        7 => 60,
        8 => 420,
        9 => 840,
        10 => 2520,
        11 => 2520,
        12 => 27720,
        13 => 27720,
        _ => 360360,
    }
}

// The number of positions of a line: after so many steps every ring is where it was.
#[tactic(auto, using(crate::proofs::Bounds::period_bound), unfolding(crate::specs::Line::period))]
pub fn period(branches: usize, unit: usize) -> usize
    requires { (branches ≤ 16) × (unit ≤ 128) }
    ensures { result ≡ period branches unit }
{
    common(branches) * unit * branches
}

impl Line {
    // A line of this setting that has made no step.
    pub fn fresh(branches: usize, unit: usize, n: usize) -> Line
        ensures { result ≡ line_at branches unit n 0 }
    {
        Line {
            branches,
            unit,
            n,
            position: 0,
        }
    }

    // Whether a line with a memory of `length` bytes is refused: the setting and the position, which some number of steps from a fresh
    // line must reach, then the length. Within the limits the products fit.
    pub fn check(&self, length: usize) -> Result<(), LineError>
        ensures { result ≡ answered line_error (line_refusal self.now length) tt }
    {
        let branches = self.branches;
        let unit = self.unit;
        let n = self.n;
        if branches < 2 || branches > 16 || unit < 1 || unit > 128 || n < 3 || n > 255 {
            return Err(LineError::BadSetting);
        }
        if n % branches != 0 || unit * branches < n || period(branches, unit) <= self.position {
            return Err(LineError::BadSetting);
        }
        if length != unit * branches * (branches - 1) / 2 {
            return Err(LineError::BadLength);
        }
        Ok(())
    }

    // The same of a receiver, whose second memory holds the marks.
    pub fn check_receiver(&self, length: usize, marks: usize) -> Result<(), LineError>
        ensures { result ≡ answered line_error (receiver_refusal self.now length marks) tt }
    {
        self.check(length)?;
        if marks != length {
            return Err(LineError::BadLength);
        }
        Ok(())
    }

    // A step for each of the bytes, in order; gives the position after them. With `back` the rings are in the receiver's order. A line is
    // lent here and not handed over: it would be copied through memory, and a step would take 42 ns and not 21.
    pub(crate) fn run(&self, back: bool, memory: &mut [u8], bytes: &mut [u8]) -> usize
        requires { Fine self.now (length memory.old) }
        ensures { ran bytes.new memory.new result ≡ line_run back self.now memory.old bytes.old }
    {
        let branches = self.branches;
        let unit = self.unit;
        run(
            branches,
            unit,
            back,
            period(branches, unit),
            self.position,
            memory,
            bytes,
        )
    }
}
