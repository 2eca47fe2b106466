// Sums over thread records, one record at a time.
ghost use Rattle.std.specs.Prelude.{◌≡◌};
ghost use Rattle.model.specs.Reading.{thread_meant, thread_state_meant, option_tick_meant};
ghost use Rattle.model.specs.Accounting.{since};
ghost use Rattle.model.specs.Questions.{is_live, is_runnable};
ghost use Rattle.record_reads.specs.Totals.{add_totals, TotalsFit};

use model::{ThreadInfo, ThreadState, Tick};

// Of no threads all are 0.
#[derive(Clone, Copy, PartialEq, Eq, Debug, Default)]
pub struct Totals {
    pub threads: u64,
    pub finished: u64,
    pub responded: u64,
    pub preemptions: u64,
    pub waiting: u64,
    pub response: u64,
    pub turnaround: u64,
    pub live: u64,
    pub runnable: u64,
}

// The ticks from `arrival` to t; 0 where t is not set.
fn ticks_since(arrival: Tick, t: Option<Tick>) -> u64
    ensures { result ≡ since arrival.0 (option_tick_meant t) }
{
    t.map_or(0, |t| t.0.saturating_sub(arrival.0))
}

fn is_live(s: ThreadState) -> bool
    ensures { result ≡ is_live (thread_state_meant s) }
{
    s != ThreadState::Exited
}

fn is_runnable(s: ThreadState) -> bool
    ensures { result ≡ is_runnable (thread_state_meant s) }
{
    matches!(&s, ThreadState::Ready | ThreadState::Running(_))
}

// The sums with one record more.
#[tactic(auto, unfolding(crate::specs::Totals::add_totals))]
pub fn totaled(n: Totals, t: ThreadInfo) -> Totals
    requires { TotalsFit (add_totals n (thread_meant t)) }
    ensures { result ≡ add_totals n (thread_meant t) }
{
    Totals {
        threads: n.threads + 1,
        finished: n.finished + u64::from(t.stats.finish.is_some()),
        responded: n.responded + u64::from(t.stats.first_run.is_some()),
        preemptions: n.preemptions + t.stats.preemptions,
        waiting: n.waiting + t.stats.ready_ticks,
        response: n.response + ticks_since(t.stats.arrival, t.stats.first_run),
        turnaround: n.turnaround + ticks_since(t.stats.arrival, t.stats.finish),
        live: n.live + u64::from(is_live(t.state)),
        runnable: n.runnable + u64::from(is_runnable(t.state)),
    }
}
