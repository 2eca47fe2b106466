// The summary's lines.
ghost use Rattle.std.specs.Prelude.{List, ◌∷◌, [], ◌++◌, ℕ, ◌+◌, ◌<◌, ◌≤◌, ◌^◌, length};
ghost use Rattle.text.specs.Buffers.{HasRoom, Wrote};
ghost use Rattle.model.specs.declared.ThreadInfo.{ThreadInfo};
ghost use Rattle.state.specs.State.{meant_at};
ghost use Rattle.summary.specs.Reading.{sums_meant, Summed};
ghost use Rattle.summary.specs.Fit.{Fit};
ghost use Rattle.script.specs.Report.{tenths, mean_text, summary_text, summary};

use record_reads::totals::Totals;
use state::Sched;
use summary::{Sums, sums_from};
use text::put::Writer;

// A number of tenths: whole ones, a point, the tenth.
#[tactic(auto, unfolding(script::specs::Report::tenths))]
fn put_tenths(w: &mut Writer, t: u64)
    requires { HasRoom w.old (tenths t) }
    ensures { Wrote w.old (tenths t) w.new }
{
    w.put_number(t / 10);
    w.put(b".");
    w.put_number(t % 10);
}

// "Means print in tenths, rounded down."
#[tactic(auto, using(crate::proofs::Means::mean_none, crate::proofs::Means::mean_some))]
fn put_mean(w: &mut Writer, sum: u64, count: u64)
    requires { (sum < 2 ^ 53) × HasRoom w.old (mean_text sum count) }
    ensures { Wrote w.old (mean_text sum count) w.new }
{
    if count == 0 {
        return w.put(b"0.0");
    }
    put_tenths(w, sum * 10 / count);
}

// A line of one mean; the key comes with its `=`.
fn put_average(w: &mut Writer, key: &[u8], sum: u64, count: u64)
    requires { (sum < 2 ^ 53) × HasRoom w.old (key.now ++ (mean_text sum count ++ (10 ∷ []))) }
    ensures { Wrote w.old (key.now ++ (mean_text sum count ++ (10 ∷ []))) w.new }
{
    w.put(key);
    put_mean(w, sum, count);
    w.put(b"\n");
}

// The whole summary.
#[tactic(auto, unfolding(script::specs::Report::summary_text, text::specs::Lines::written, text::specs::Lines::commas))]
pub fn put_summary(w: &mut Writer, sums: Sums)
    requires { Fit sums × HasRoom w.old (summary_text sums.now.0 (sums_meant sums)) }
    ensures text { Wrote w.old (summary_text sums.now.0 (sums_meant sums)) w.new }
    ensures short { w.new.at ≤ w.old.at + 400 }
{
    w.put_number_line(b"threads=", sums.threads);
    w.put_number_line(b"finished=", sums.finished);
    w.put_number_line(b"ticks=", sums.now.0);
    w.put_number_line(b"context_switches=", sums.context_switches);
    w.put_number_line(b"preemptions=", sums.preemptions);
    put_average(w, b"waiting=", sums.waiting, sums.threads);
    put_average(w, b"response=", sums.response, sums.responded);
    put_average(w, b"turnaround=", sums.turnaround, sums.finished);
    w.put_number_line(b"busy=", sums.busy);
    w.put_number_line(b"core_ticks=", sums.core_ticks);
}

// The summary of a scheduler's state, from the sums over its thread records (`threads::totals`).
pub fn put_summary_of(w: &mut Writer, s: Sched, totals: Totals)
    requires { ((ts : List ThreadInfo) × (qs : List ℕ) × (ps : List ℕ) × (ls : List ℕ) × (ws : List ℕ) × Summed s totals ts qs ps ls ws)
        × (w.old.at + 400 ≤ length w.old.out.now) }
    ensures text { (ts : List ThreadInfo) (qs ps ls ws : List ℕ) → Summed s totals ts qs ps ls ws → Wrote w.old (summary (meant_at s ts qs ls ws)) w.new }
    ensures short { w.new.at ≤ w.old.at + 400 }
{
    put_summary(w, sums_from(s, totals));
}
