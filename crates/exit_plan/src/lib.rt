// The parts of the call `exit` that hold no thread record: which record is changed and how, and what the call does once the waiters are woken.
// A refused call changes no record: it has place 0 with `Change::Keep`, and no thread is looked through for waiters.
// Its public functions are parts for other crates: no host calls them.
#![tactic(auto)]

ghost use Rattle.std.specs.Prelude.{◌≡◌, ◌-◌, ◌<◌, ◌≤◌, length, take, drop};
ghost use Rattle.rings.specs.Ring.{RingOK};
ghost use Rattle.exit_plan.specs.Exit.{exit_tid, exit_place, exit_change, exit_threads, WakesLogged, FinishFit, Finished};

use accounts::log::log_wakes;
use checks::{Needs, check_core};
use model::{CoreId, Tick, Tid};
use records::change::Change;
use rings::RingPos;
use sched_marks::Answered;
use state::{Sched, state_at};

// The thread of the core; 0 where there is none.
pub fn exit_tid(s: Sched, core: CoreId) -> Tid
    ensures { result ≡ exit_tid s core.0 }
{
    let state = state_at(s.states, core.0 as usize);
    state.tid().unwrap_or(Tid(0))
}

// The record that changes.
pub fn exit_place(s: Sched, core: CoreId) -> usize
    requires { s.cores ≤ 8 }
    ensures { result ≡ exit_place s core.0 }
{
    match check_core(s, core, Needs::Held) {
        Err(_) => 0,
        Ok(()) => exit_tid(s, core).0 as usize,
    }
}

// How it changes.
pub fn exit_change(s: Sched, core: CoreId) -> Change
    requires { s.cores ≤ 8 }
    ensures { result ≡ exit_change s core.0 }
{
    match check_core(s, core, Needs::Held) {
        Err(_) => Change::Keep,
        Ok(()) => Change::Exit { now: s.now },
    }
}

// How many threads are looked through for waiters.
pub fn exit_threads(s: Sched, core: CoreId) -> usize
    requires { s.cores ≤ 8 }
    ensures { result ≡ exit_threads s core.0 }
{
    match check_core(s, core, Needs::Held) {
        Err(_) => 0,
        Ok(()) => s.threads,
    }
}

// The threads queue[from..to] were woken: the ring of events is in the first `words` words of the log's memory.
fn log_woken(
    log: &mut [u64],
    words: usize,
    pos: RingPos,
    queue: &[u32],
    from: usize,
    to: usize,
    tick: Tick,
) -> RingPos
    requires { (words ≤ length log.old) × RingOK (take words log.old) pos × (from ≤ to) × (to ≤ length queue.now) × (tick.0 < 4294967296) }
    ensures { WakesLogged words tick.0 (take (to - from) (drop from queue.now)) log.old log.new pos result }
{
    log_wakes(&mut log[..words], pos, queue, from, to, tick)
}

// The call's end, where the waiters stand in the queue up to `len`.
pub fn exit_finished(
    s: Sched,
    core: CoreId,
    len: usize,
    queue: &[u32],
    log: &mut [u64],
) -> Answered<()>
    requires { FinishFit s len queue.now log.old }
    ensures { Finished s core.0 len queue.now log.old log.new result.sched result.answer }
{
    let answer = check_core(s, core, Needs::Held);
    match answer {
        Err(_) => Answered { sched: s, answer },
        Ok(()) => {
            let i = core.0 as usize;
            let words = 2 * s.capacities.events;
            let mut next = s;
            next.marks.exits[i] = true;
            next.queued = len;
            next.log = log_woken(log, words, s.log, queue, s.queued, len, s.now);
            Answered {
                sched: next,
                answer,
            }
        }
    }
}
