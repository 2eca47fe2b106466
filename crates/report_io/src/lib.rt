// The report program's input and output, in blocks, without the lent thread records: the next line of the script, and what is printed. One lent buffer holds
// a block of the script and, behind it, a block of the report.
// Its public functions are parts for other crates: no host calls them.
#![tactic(auto)]

ghost use Rattle.std.specs.Prelude.{◌≡◌};
ghost use Rattle.report_io.specs.Marks.{marked_report};

use feed_plan::{Line, Next, Report};
use settings::Refusal;
use state::Sched;

pub mod first;
pub mod input;
pub mod marks;
pub mod printed;

// Both blocks have so many bytes.
pub const BLOCK: usize = 65_536;

// "A script has at most 1,000,000,000,000 lines; the next one is 6." So no line follows this many.
pub const MAX_TURNS: u64 = 1_000_000_000_001;

// Where the program is in its two blocks: the script's bytes from `at` to `end` are still to be taken, `pending` bytes of the report are still to be written.
// `turn` counts the lines taken; it is MAX_TURNS where none follows.
#[derive(Clone, Copy)]
pub struct Place {
    pub at: usize,
    pub end: usize,
    pub all_read: bool,
    pub pending: usize,
    pub all_written: bool,
    pub turn: u64,
}

// What lines `retired=` that follow each other make of the progressed marks, and how many they are.
#[derive(Clone, Copy)]
pub struct Ahead {
    pub progressed: [bool; 8],
    pub count: usize,
}

// What such lines change of a report. The rest of it, which is long, is not copied for them.
#[derive(Clone, Copy)]
pub struct Marked {
    pub lines: u64,
    pub progressed: [bool; 8],
}

// The next line, as it reads in the report's stage, and where the program is then. `marked` is the report's where lines `retired=` were taken before it.
#[derive(Clone, Copy)]
pub struct Upcoming {
    pub line: Result<Line, Refusal>,
    pub place: Place,
    pub marked: Marked,
}

// The report after a line, and after the lines `retired=` that were taken with it.
pub fn marked_report(next: Next, u: Upcoming) -> Report
    ensures { result ≡ marked_report next.report u.marked }
{
    let Marked { lines, progressed } = u.marked;
    let mut report = next.report;
    report.lines = lines;
    report.sched.marks.progressed = progressed;
    report
}
