// The questions that read the lent thread records, and the summary over them. A host hands in the scheduler and the records as it lends them to the calls: all
// that is asked is what `new` and every call leave (`Askable`). Each public function is thin; what it computes stands in parts, which are
// given the sums over the records in use, or one record.
#![tactic(auto)]

mod left;
mod places;

ghost use Rattle.std.specs.Prelude.{◌≡◌, map};
ghost use Rattle.model.specs.Accounting.{sums};
ghost use Rattle.model.specs.Reading.{thread_meant};
ghost use Rattle.model.specs.Questions.{thread_at, has_live, has_runnable, is_deadlocked, figures};
ghost use Rattle.record_reads.specs.Totals.{totals_of};
ghost use Rattle.state.specs.Asked.{Askable, Answers, the_threads};
ghost use Rattle.summary.specs.Reading.{SumsAre, figures_meant, figure_bits};
ghost use Rattle.thread_questions.specs.Reading.{option_thread_meant, asked_of};

use left::{any_live, any_runnable, only_blocked};
use model::{ThreadInfo, Tid};
use places::{found, has_thread, in_use, missing, record_index};
use record_reads::totals::Totals;
use state::Sched;
use summary::{FigureBits, SchedSummary, Sums, bits_from, figures_from, sums_from};
use threads::{record_at, totals};

// What is left to run, and the bit patterns of the summary's figures.
#[derive(Clone, Copy)]
pub struct Asked {
    pub live: bool,
    pub runnable: bool,
    pub deadlocked: bool,
    pub bits: FigureBits,
}

// The records in use, in thread order: a part of the lent records.
pub fn threads(s: Sched, threads: &[ThreadInfo]) -> &[ThreadInfo]
    requires { Askable s (the_threads threads.now) }
    ensures { Answers s (the_threads threads.now) (λ d. map thread_meant result.now ≡ d.accounts.threads) }
{
    let n = s.threads;
    &threads[..n]
}

// The record of a thread.
pub fn thread(s: Sched, threads: &[ThreadInfo], tid: Tid) -> Option<ThreadInfo>
    requires { Askable s (the_threads threads.now) }
    ensures { Answers s (the_threads threads.now) (λ d. option_thread_meant result ≡ thread_at d tid.0) }
{
    if has_thread(s, tid) {
        return found(record_at(threads, record_index(tid)));
    }
    missing()
}

// The sums over the records in use, from which the other answers are made.
fn totals_in_use(s: Sched, threads: &[ThreadInfo]) -> Totals
    requires { Askable s (the_threads threads.now) }
    ensures { Answers s (the_threads threads.now) (λ d. result ≡ totals_of d.accounts.threads) }
{
    totals(threads, in_use(s))
}

// Some thread has not exited.
pub fn has_live_threads(s: Sched, threads: &[ThreadInfo]) -> bool
    requires { Askable s (the_threads threads.now) }
    ensures { Answers s (the_threads threads.now) (λ d. result ≡ has_live d) }
{
    any_live(totals_in_use(s, threads))
}

// Some thread holds a core or waits for one.
pub fn has_runnable_threads(s: Sched, threads: &[ThreadInfo]) -> bool
    requires { Askable s (the_threads threads.now) }
    ensures { Answers s (the_threads threads.now) (λ d. result ≡ has_runnable d) }
{
    any_runnable(totals_in_use(s, threads))
}

// Threads are left, and none of them will ever run again.
pub fn is_deadlocked(s: Sched, threads: &[ThreadInfo]) -> bool
    requires { Askable s (the_threads threads.now) }
    ensures { Answers s (the_threads threads.now) (λ d. result ≡ is_deadlocked d) }
{
    only_blocked(totals_in_use(s, threads))
}

// The exact sums that the report prints, and the time of the summary.
pub fn sums_of(s: Sched, threads: &[ThreadInfo]) -> Sums
    requires { Askable s (the_threads threads.now) }
    ensures { Answers s (the_threads threads.now) (λ d. SumsAre result d) }
{
    sums_from(s, totals_in_use(s, threads))
}

// The four figures.
pub fn summary(s: Sched, threads: &[ThreadInfo]) -> SchedSummary
    requires { Askable s (the_threads threads.now) }
    ensures { Answers s (the_threads threads.now) (λ d. figures_meant result ≡ figures (sums d.accounts)) }
{
    figures_from(s, totals_in_use(s, threads))
}

// The bit patterns of the four figures.
pub fn bits_of(s: Sched, threads: &[ThreadInfo]) -> FigureBits
    requires { Askable s (the_threads threads.now) }
    ensures { Answers s (the_threads threads.now) (λ d. result ≡ figure_bits (figures (sums d.accounts))) }
{
    bits_from(s, totals_in_use(s, threads))
}

// The questions about all threads at once.
pub fn asked_in(s: Sched, threads: &[ThreadInfo]) -> Asked
    requires { Askable s (the_threads threads.now) }
    ensures { Answers s (the_threads threads.now) (λ d. result ≡ asked_of d) }
{
    let live = has_live_threads(s, threads);
    let runnable = has_runnable_threads(s, threads);
    let deadlocked = is_deadlocked(s, threads);
    let bits = bits_of(s, threads);
    Asked {
        live,
        runnable,
        deadlocked,
        bits,
    }
}
