// A whole script in memory, without the lent thread records: its lines, the room that its report takes, and where reading and printing stand.
// Its public functions are parts for other crates: no host calls them.
#![tactic(auto)]

ghost use Rattle.std.specs.Prelude.{◌≡◌, ◌+◌, ◌*◌, ◌-◌, ◌<◌, ◌≤◌, ltb, length, take, drop};
ghost use Rattle.text.specs.Lines.{cut};
ghost use Rattle.feed_plan.specs.Meant.{Few};
ghost use Rattle.feed_plan.specs.Feeding.{Sayable, EndAsked};
ghost use Rattle.report_plan.specs.Running.{Begins, ReachedAs, ProgressedAs, EndedAs};

use feed_plan::reading::read_line;
use feed_plan::saying::{put_end, put_text};
use feed_plan::start::start;
use feed_plan::{Line, Next, Report};
use record_reads::totals::Totals;
use settings::Refusal;
use text::lines::piece_end;

// The report after some lines: what is read next begins at `from`, and what is printed next is put at `at`.
#[derive(Clone, Copy)]
pub struct Progress {
    pub report: Report,
    pub from: usize,
    pub at: usize,
}

// What the next line says, and where it ends.
#[derive(Clone, Copy)]
pub struct Reached {
    pub line: Result<Line, Refusal>,
    pub end: usize,
}

// How many lines a script has.
pub fn line_count(script: &[u8]) -> usize
    ensures { result ≡ length (cut script.now) }
{
    let mut at = 0;
    let mut n = 0;
    // kept: a turn goes past a whole line, as far as the scan for its end came.
    while at < script.len() {
        at = piece_end(script, at);
        n += 1;
    }
    n
}

// Whether a buffer has less room than so many lines may print.
#[tactic(auto, using(crate::proofs::Parts::short_small, crate::proofs::Parts::short_is))]
pub fn is_short(lines: usize, room: usize) -> bool
    ensures { result ≡ ltb room (288 * lines + 400) }
{
    room < 400 || (room - 400) / 288 < lines
}

// Before the first line.
#[tactic(auto, using(crate::proofs::Parts::begins))]
pub fn begin() -> Progress
    ensures { Begins result }
{
    Progress {
        report: start(),
        from: 0,
        at: 0,
    }
}

// The next line, read in the report's stage.
pub fn reach(p: Progress, script: &[u8]) -> Reached
    requires { (p.from < length script.now) × Few p.report.stage p.report.lines }
    ensures { ReachedAs p script.now result }
{
    let end = piece_end(script, p.from);
    Reached {
        line: read_line(p.report, &script[p.from..end]),
        end,
    }
}

// What the line prints is put behind what was printed before.
pub fn put_progress(p: Progress, q: Reached, next: Next, out: &mut [u8]) -> Progress
    requires { (p.at ≤ length out.old) × Sayable next (drop p.at out.old) }
    ensures { ProgressedAs p q next out.old out.new result }
{
    let n = put_text(next, &mut out[p.at..]);
    Progress {
        report: next.report,
        from: q.end,
        at: p.at + n,
    }
}

// What stands at the end is put behind the rest.
pub fn put_finish(p: Progress, totals: Totals, out: &mut [u8]) -> usize
    requires { (p.at ≤ length out.old) × EndAsked p.report totals (drop p.at out.old) }
    ensures { EndedAs p totals out.old out.new result }
{
    let n = put_end(p.report, totals, &mut out[p.at..]);
    p.at + n
}
