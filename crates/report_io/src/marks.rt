// Lines `retired=` that follow each other are taken together: they print nothing, and of the scheduler they change the progressed marks alone. Every core
// reports in every tick, so most lines of a script are such lines.
ghost use Rattle.std.specs.Prelude.{◌≡◌, true, ◌+◌, ◌*◌, ◌<◌, ◌≤◌, ◌^◌, length, drop, unwrap_or, IfSome};
ghost use Rattle.feed_plan.specs.Feeding.{reader_of};
ghost use Rattle.report_io.specs.Blocks.{Within};
ghost use Rattle.report_io.specs.Marks.{MarkedCore, MarksAhead, TakesMarks, LinesAhead, no_marks, marked_report, marked_by, place_after};

use crate::{Ahead, Marked, Place};
use feed_plan::{Reader, Report, Stage};
use text::lines::is_same;

// The core that a line `retired=` at `at` names by one digit.
fn marked_core(text: &[u8], at: usize) -> Option<usize>
    requires { (at ≤ length text.now) × (length text.now ≤ 65_536) }
    ensures core { MarkedCore (drop at text.now) (unwrap_or result 8) }
    ensures digit { IfSome result (λ c. c < 8) }
{
    if text.len() < at + 10 {
        return None;
    }
    let line = &text[at..at + 10];
    if !is_same(&line[..8], b"retired=") || line[9] != b'\n' {
        return None;
    }
    match line[8] {
        digit @ b'0'..=b'7' => Some((digit - b'0') as usize),
        _ => None,
    }
}

// The lines `retired=` in front of a text, each of a core that there is.
fn marks_ahead(text: &[u8], cores: usize, progressed: [bool; 8]) -> Ahead
    requires { length text.now ≤ 65_536 }
    ensures { MarksAhead text.now cores progressed result }
{
    let mut marks = progressed;
    let most = text.len() / 10;
    for count in 0..most {
        match marked_core(text, 10 * count) {
            Some(core) if core < cores => marks[core] = true,
            _ => {
                return Ahead {
                    progressed: marks,
                    count,
                };
            }
        }
    }
    Ahead {
        progressed: marks,
        count: most,
    }
}

// Whether lines may be taken together: the scheduler takes `retired`, and as many lines as a block holds are not too many.
fn takes_marks(r: Report, p: Place) -> bool
    ensures { result ≡ true → TakesMarks r p }
{
    matches!(&r.stage, Stage::Calls)
        && !r.sched.closed
        && r.lines <= 999_999_900_000
        && p.turn <= 999_999_900_000
}

fn no_marks(r: Report) -> Ahead
    ensures { result ≡ no_marks r }
{
    let progressed = r.sched.marks.progressed;
    Ahead {
        progressed,
        count: 0,
    }
}

// The lines `retired=` that stand next in the script's block. How many of them are taken together is left open: the report is the same.
pub fn lines_ahead(r: Report, p: Place, blocks: &[u8]) -> Ahead
    requires { Within p × (131_072 ≤ length blocks.now) }
    ensures { LinesAhead r p blocks.now result }
{
    if !takes_marks(r, p) {
        return no_marks(r);
    }
    marks_ahead(
        &blocks[p.at..p.end],
        r.sched.cores,
        r.sched.marks.progressed,
    )
}

pub fn unmarked(r: Report) -> Marked
    ensures { result ≡ marked_by r (no_marks r) }
{
    marked_by(r, no_marks(r))
}

// What the lines ahead change of the report.
pub fn marked_by(r: Report, a: Ahead) -> Marked
    requires { r.lines + a.count < 2 ^ 64 }
    ensures { result ≡ marked_by r a }
{
    let Ahead { progressed, count } = a;
    Marked {
        lines: r.lines + count as u64,
        progressed,
    }
}

// What the line behind them is read by.
pub fn reader_after(r: Report, m: Marked) -> Reader
    ensures { result ≡ reader_of (marked_report r m) }
{
    Reader {
        lines: m.lines,
        stage: r.stage,
        head: r.head,
    }
}

// Behind the lines ahead, each of ten bytes.
pub fn place_after(p: Place, a: Ahead) -> Place
    requires { (p.at + 10 * a.count < 2 ^ 64) × (p.turn + a.count < 2 ^ 64) }
    ensures { result ≡ place_after a.count p }
{
    Place {
        at: p.at + 10 * a.count,
        turn: p.turn + a.count as u64,
        ..p
    }
}
