// The report program on a script in memory.
// Its public functions are parts for other crates: no host calls them.
#![tactic(auto)]

ghost use Rattle.std.specs.Prelude.{List, ℕ};
ghost use Rattle.text.specs.Buffers.{Put};
ghost use Rattle.script.specs.Report.{finish};
ghost use Rattle.state.specs.Memory.{memory, held, SameLoans};
ghost use Rattle.feed_plan.specs.Meant.{report_meant, Roomy, ReportValid};
ghost use Rattle.report_plan.specs.Turning.{NextAsked, NextDone, FinishAsked};
ghost use Rattle.script_report.specs.Reporting.{LinesAsked, LinesDone, ReportDone};

use feed::advance;
use feed_plan::saying::record_count;
use model::ThreadInfo;
use report_plan::{Progress, begin, is_short, line_count, put_finish, put_progress, reach};
use settings::Refusal;
use state::memory::LentMemory;
use threads::totals;

// The next line of a script fed, and what it prints put behind what was printed before.
pub fn feed_next(p: Progress, script: &[u8], out: &mut [u8], m: &mut LentMemory) -> Progress
    requires { NextAsked p script.now out.old (held m.old) }
    ensures done { NextDone p script.now out.old out.new (held m.old) (held m.new) result }
    ensures lent { SameLoans m.old m.new }
{
    let q = reach(p, script);
    let next = advance(p.report, q.line, m);
    put_progress(p, q, next, out)
}

// What stands at the end of a script, put behind what was printed before.
pub fn finish_at(p: Progress, out: &mut [u8], threads: &[ThreadInfo]) -> usize
    requires { FinishAsked p out.old threads.now }
    ensures { (qs ps ls ws : List ℕ) → ReportValid p.report (memory threads.now qs ps ls ws)
        → Put out.old p.at (finish (report_meant p.report (memory threads.now qs ps ls ws))) out.new result }
{
    let sums = totals(threads, record_count(p.report));
    put_finish(p, sums, out)
}

// The next n lines fed one after the other, and then the end.
fn feed_lines(first: Progress, n: usize, script: &[u8], out: &mut [u8], m: &mut LentMemory) -> usize
    requires { LinesAsked first n script.now out.old (held m.old) }
    ensures done { LinesDone first n script.now out.old out.new (held m.old) (held m.new) result }
    ensures lent { SameLoans m.old m.new }
{
    let mut p = first;
    for _ in 0..n {
        p = feed_next(p, script, out, m);
    }
    let threads = &mut *m.threads;
    finish_at(p, out, threads)
}

// The report on a whole script, on memory lent for T 256, E 512 and S 256: 256 thread records, queue words and priorities, 1,024 log words and
// 4,176 lane words. A buffer of 288 bytes a line and 400 more is never short.
pub fn report(script: &[u8], out: &mut [u8], m: &mut LentMemory) -> Result<usize, Refusal>
    requires { Roomy (held m.old) }
    ensures done { ReportDone script.now out.old out.new (held m.old) (held m.new) result }
    ensures lent { SameLoans m.old m.new }
{
    let lines = line_count(script);
    if is_short(lines, out.len()) {
        return Err(Refusal::Capacity);
    }
    Ok(feed_lines(begin(), lines, script, out, m))
}
