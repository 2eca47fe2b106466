// What is put into the lent buffer: what a line prints, and what stands at the end.
ghost use Rattle.std.specs.Prelude.{◌≡◌, ◌≤◌};
ghost use Rattle.text.specs.Buffers.{Put, HasRoom, Wrote};
ghost use Rattle.state.specs.Memory.{Memory};
ghost use Rattle.script.specs.Report.{finish};
ghost use Rattle.feed_plan.specs.Meant.{report_meant};
ghost use Rattle.feed_plan.specs.Steps.{next_text, records_in};
ghost use Rattle.feed_plan.specs.Feeding.{Sayable, SaidAs, EndFits, EndAsked};

use crate::{Fed, Next, Report, Stage};
use output::lines::{put_joined, put_refused, put_switches};
use output::sums::put_summary_of;
use record_reads::totals::Totals;
use sched::Outcome;
use settings::Refusal;
use text::put::Writer;

// The text alone.
fn put_line(w: &mut Writer, next: Next)
    requires { (next.switches.count ≤ 8) × HasRoom w.old (next_text next) }
    ensures { Wrote w.old (next_text next) w.new }
{
    match next.outcome {
        Err(k) => put_refused(w, next.line, k),
        Ok(Outcome::Joined(joined)) => put_joined(w, next.line, joined),
        Ok(Outcome::Switched) => put_switches(w, next.report.sched.now, next.switches),
        Ok(Outcome::Taken) => {}
        Ok(Outcome::Spawned(_)) => {}
    }
}

// The same at the front of the buffer; answers where it ends.
pub fn put_text(next: Next, out: &mut [u8]) -> usize
    requires { Sayable next out.old }
    ensures { Put out.old 0 (next_text next) out.new result }
{
    let mut w = Writer { out, at: 0 };
    put_line(&mut w, next);
    w.at
}

// What a line prints, at the front of the buffer.
pub fn put_next(next: Next, out: &mut [u8]) -> Fed
    requires { Sayable next out.old }
    ensures { SaidAs next out.old out.new result }
{
    Fed {
        report: next.report,
        written: put_text(next, out),
    }
}

// The thread records that the summary adds up: none where there is no scheduler.
pub fn record_count(r: Report) -> usize
    ensures { result ≡ records_in r.stage r.sched }
{
    match r.stage {
        Stage::Heads | Stage::Over => 0,
        Stage::Calls | Stage::Ended => r.sched.threads,
    }
}

// The summary, or that `cores=` is missing. "a missing line counts as the line after the last"
fn put_finish(w: &mut Writer, r: Report, totals: Totals)
    requires { (w.old.at ≡ 0) × EndAsked r totals w.old.out.now }
    ensures { (m : Memory) → EndFits r totals m → Wrote w.old (finish (report_meant r m)) w.new }
{
    match r.stage {
        Stage::Heads => put_refused(w, r.lines + 1, Refusal::BadLine),
        Stage::Calls | Stage::Ended => put_summary_of(w, r.sched, totals),
        Stage::Over => {}
    }
}

// What stands at the end of a script, at the front of the buffer; answers where it ends.
pub fn put_end(r: Report, totals: Totals, out: &mut [u8]) -> usize
    requires { EndAsked r totals out.old }
    ensures { (m : Memory) → EndFits r totals m → Put out.old 0 (finish (report_meant r m)) out.new result }
{
    let mut w = Writer { out, at: 0 };
    put_finish(&mut w, r, totals);
    w.at
}
