// The report program's core: one line of a script fed to the scheduler on lent memory, and what stands at the end. All that is printed is put into
// a lent buffer.
// Its public functions are parts for other crates: no host calls them.
#![tactic(auto)]

ghost use Rattle.std.specs.Prelude.{List, ℕ, ◌≤◌, length};
ghost use Rattle.text.specs.Buffers.{Put};
ghost use Rattle.script.specs.Report.{finish as Report·finish};
ghost use Rattle.state.specs.Memory.{memory, held, SameLoans};
ghost use Rattle.feed_plan.specs.Meant.{report_meant, ReportValid};
ghost use Rattle.feed_plan.specs.Feeding.{LineAsked, LineDone, FeedDone};

use feed_plan::reading::read_line;
use feed_plan::saying::{put_end, put_next, record_count};
use feed_plan::steps::{capacities, headed, of_applied, of_created, quiet, refused};
use feed_plan::{Fed, Line, Next, Report};
use model::ThreadInfo;
use sched::apply;
use sched_new::new_on;
use settings::Refusal;
use state::memory::LentMemory;
use threads::totals;

// What a line that was read makes of the report: the scheduler is made, or called, or left as it is.
pub fn advance(r: Report, line: Result<Line, Refusal>, m: &mut LentMemory) -> Next
    requires { LineAsked r line (held m.old) }
    ensures done { LineDone r line (held m.old) (held m.new) result }
    ensures lent { SameLoans m.old m.new }
{
    match line {
        Err(k) => refused(r, k),
        Ok(Line::Nothing) => quiet(r),
        Ok(Line::Head(head)) => headed(r, head),
        Ok(Line::Start { config, cores }) => {
            of_created(r, new_on(config, cores, capacities(), 0, m))
        }
        Ok(Line::Call(call)) => of_applied(r, apply(r.sched, call, m)),
    }
}

// One line, its byte 10 included: what it prints is put at the front of `out`.
pub fn feed(r: Report, line: &[u8], out: &mut [u8], m: &mut LentMemory) -> Fed
    requires { ReportValid r (held m.old) × (288 ≤ length out.old) }
    ensures done { FeedDone r line.now out.old out.new (held m.old) (held m.new) result }
    ensures lent { SameLoans m.old m.new }
{
    let said = read_line(r, line);
    let next = advance(r, said, m);
    put_next(next, out)
}

// What stands at the end of a script, put at the front of `out`.
pub fn finish(r: Report, out: &mut [u8], threads: &[ThreadInfo]) -> usize
    requires { ((qs : List ℕ) × (ps : List ℕ) × (ls : List ℕ) × (ws : List ℕ) × ReportValid r (memory threads.now qs ps ls ws)) × (400 ≤ length out.old) }
    ensures { (qs ps ls ws : List ℕ) → ReportValid r (memory threads.now qs ps ls ws)
        → Put out.old 0 (Report·finish (report_meant r (memory threads.now qs ps ls ws))) out.new result }
{
    let sums = totals(threads, record_count(r));
    put_end(r, sums, out)
}
