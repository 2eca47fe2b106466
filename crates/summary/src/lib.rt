// The summary: exact sums over threads and cores, and the four figures, each one division of two sums.
// `sums_from`, `figures_from` and `bits_from` are parts: they take the sums over the thread records, which `thread_questions` makes of the records.
#![tactic(auto)]

ghost use Rattle.std.specs.Prelude.{◌≡◌, List, ℕ, ◌+◌, ◌<◌, ◌≤◌, ◌^◌, get_or};
ghost use Rattle.std.specs.Float.{binary64};
ghost use Rattle.std.specs.Float.Ieee.{to_bits};
ghost use Rattle.model.specs.declared.ThreadInfo.{ThreadInfo};
ghost use Rattle.model.specs.Accounting.{sums};
ghost use Rattle.model.specs.Questions.{figures};
ghost use Rattle.model.specs.Questions.{mean as Questions·mean};
ghost use Rattle.state.specs.State.{meant_at, no_ticks};
ghost use Rattle.summary.specs.Reading.{SumsAre, figures_meant, figure_bits, Summed};
ghost use Rattle.summary.specs.Cores.{all_ticks, busy_in, all_in};
ghost use Rattle.summary.specs.Fit.{Fit};

use model::{CoreTicks, Tick};
use record_reads::totals::Totals;
use state::Sched;

// The exact sums that the report prints, and the time of the summary.
#[derive(Clone, Copy)]
pub struct Sums {
    pub threads: u64,
    pub finished: u64,
    pub responded: u64,
    pub context_switches: u64,
    pub preemptions: u64,
    pub waiting: u64,
    pub response: u64,
    pub turnaround: u64,
    pub busy: u64,
    pub core_ticks: u64,
    pub now: Tick,
}

// "Four binary64 figures in one record: means of ready ticks (all threads), response (those with a first run), turnaround (finished), and
// utilization."
#[derive(Clone, Copy)]
pub struct SchedSummary {
    pub avg_waiting: f64,
    pub avg_response: f64,
    pub avg_turnaround: f64,
    pub utilization: f64,
}

// The bit patterns of the four figures.
#[derive(Clone, Copy)]
pub struct FigureBits {
    pub waiting: u64,
    pub response: u64,
    pub turnaround: u64,
    pub utilization: u64,
}

#[derive(Clone, Copy)]
struct CoreTotals {
    busy: u64,
    all: u64,
}

// One core's counters.
fn totals_of(t: CoreTicks) -> CoreTotals
    ensures { (result.busy ≡ t.busy) × (result.all ≡ all_ticks t) }
{
    let busy = t.busy as u64;
    CoreTotals {
        busy,
        all: busy + t.switching as u64 + t.idle as u64,
    }
}

// The busy ticks and all ticks of the first n cores.
fn core_totals(ticks: [CoreTicks; 8], n: usize) -> CoreTotals
    requires { (n ≤ 8) × ((i : ℕ) → i < n → all_ticks (get_or ticks i no_ticks) ≤ 4_000_000_000) }
    ensures { (result.busy ≡ busy_in ticks n) × (result.all ≡ all_in ticks n) }
{
    let mut busy: u64 = 0;
    let mut all: u64 = 0;
    for counters in &ticks[..n] {
        let more = totals_of(*counters);
        busy += more.busy;
        all += more.all;
    }
    CoreTotals { busy, all }
}

// The exact sums, from the sums over the thread records and the cores' counters.
pub fn sums_from(s: Sched, totals: Totals) -> Sums
    requires { (ts : List ThreadInfo) × (qs : List ℕ) × (ps : List ℕ) × (ls : List ℕ) × (ws : List ℕ) × Summed s totals ts qs ps ls ws }
    ensures { ((ts : List ThreadInfo) (qs ps ls ws : List ℕ) → Summed s totals ts qs ps ls ws → SumsAre result (meant_at s ts qs ls ws)) × Fit result }
{
    let cores = core_totals(s.ticks, s.cores);
    Sums {
        threads: totals.threads,
        finished: totals.finished,
        responded: totals.responded,
        context_switches: s.context_switches,
        preemptions: totals.preemptions,
        waiting: totals.waiting,
        response: totals.response,
        turnaround: totals.turnaround,
        busy: cores.busy,
        core_ticks: cores.all,
        now: s.now,
    }
}

// "Each is an exact sum divided once; over nobody it is 0.0": both sums convert exactly, and the division rounds once.
fn mean(sum: u64, count: u64) -> f64
    requires { (sum < 2 ^ 53) × (count < 2 ^ 53) }
    ensures { result ≡ Questions·mean sum count }
{
    if count == 0 {
        return 0.0;
    }
    (sum as f64) / (count as f64)
}

// The four figures.
pub fn figures_from(s: Sched, totals: Totals) -> SchedSummary
    requires { (ts : List ThreadInfo) × (qs : List ℕ) × (ps : List ℕ) × (ls : List ℕ) × (ws : List ℕ) × Summed s totals ts qs ps ls ws }
    ensures { (ts : List ThreadInfo) (qs ps ls ws : List ℕ) → Summed s totals ts qs ps ls ws → figures_meant result ≡ figures (sums (meant_at s ts qs ls ws).accounts) }
{
    let n = sums_from(s, totals);
    SchedSummary {
        avg_waiting: mean(n.waiting, n.threads),
        avg_response: mean(n.response, n.responded),
        avg_turnaround: mean(n.turnaround, n.finished),
        utilization: mean(n.busy, n.core_ticks),
    }
}

// A mean's bit pattern: a mean is never a NaN, which has no one pattern.
fn mean_bits(sum: u64, count: u64) -> u64
    requires { (sum < 2 ^ 53) × (count < 2 ^ 53) }
    ensures { result ≡ to_bits binary64 (Questions·mean sum count) }
{
    mean(sum, count).to_bits()
}

// The bit patterns of the four figures.
pub fn bits_from(s: Sched, totals: Totals) -> FigureBits
    requires { (ts : List ThreadInfo) × (qs : List ℕ) × (ps : List ℕ) × (ls : List ℕ) × (ws : List ℕ) × Summed s totals ts qs ps ls ws }
    ensures { (ts : List ThreadInfo) (qs ps ls ws : List ℕ) → Summed s totals ts qs ps ls ws → result ≡ figure_bits (figures (sums (meant_at s ts qs ls ws).accounts)) }
{
    let n = sums_from(s, totals);
    FigureBits {
        waiting: mean_bits(n.waiting, n.threads),
        response: mean_bits(n.response, n.responded),
        turnaround: mean_bits(n.turnaround, n.finished),
        utilization: mean_bits(n.busy, n.core_ticks),
    }
}
