// A load: a scheduler made, threads spawned, and many ticks one after the other: in each, every core reports by `retired`, and `end_tick` ends it.
// No call is a value that has to be taken apart, so that what is timed is the calls themselves.
// Its public functions are parts for other crates: no host calls them.
#![tactic(auto)]

ghost use Rattle.std.specs.Prelude.{◌≡◌, List, ℕ, ◌<◌};
ghost use Rattle.state.specs.Memory.{Memory, memory, held, SameLoans};
ghost use Rattle.state.specs.Asked.{Askable, nothing};
ghost use Rattle.state.specs.State.{Valid};
ghost use Rattle.checks.specs.Check.{check_meant};
ghost use Rattle.ticking.specs.Turns.{reports, Ran, TurnsDone, SpawnsDone};
ghost use Rattle.ticking.specs.Load.{due, LoadDone};

use model::{CoreId, ThreadInfo, Tid};
use new_plan::Created;
use sched_marks::marks::retired;
use sched_new::new_on;
use sched_threads::spawn;
use sched_tick::end_tick;
use settings::{Refusal, SchedConfig};
use state::memory::LentMemory;
use state::{Capacities, Sched};

// What `new` answered, and what is left.
#[derive(Clone, Copy)]
pub struct Loaded {
    pub made: Result<(), Refusal>,
    pub sched: Sched,
}

// Every core reports.
fn retired_all(s: Sched) -> Sched
    requires { Askable s nothing }
    ensures { (m : Memory) → Valid s m → Ran (reports s.cores) s result m m }
{
    let mut next = s;
    for core in 0..s.cores {
        let answered = retired(next, CoreId(core as u32));
        next = answered.sched;
    }
    next
}

// So many ticks, each on what the one before left.
pub fn run_ticks(
    first: Sched,
    ticks: usize,
    threads: &mut [ThreadInfo],
    queue: &mut [u32],
    prios: &[u32],
    log: &mut [u64],
    lanes: &mut [u64],
) -> Sched
    requires { 0 < ticks → Valid first (memory threads.old queue.old prios.now log.old lanes.old) }
    ensures { TurnsDone ticks first result
        (memory threads.old queue.old prios.now log.old lanes.old)
        (memory threads.new queue.new prios.now log.new lanes.new) }
{
    let mut last = first;
    for _ in 0..ticks {
        let reported = retired_all(last);
        let t = end_tick(reported, threads, queue, prios, log, lanes);
        last = t.sched;
    }
    last
}

// Thread 0 spawns so many, each on what the one before left.
pub fn spawn_all(
    first: Sched,
    count: usize,
    threads: &mut [ThreadInfo],
    queue: &mut [u32],
    prios: &mut [u32],
    log: &mut [u64],
) -> Sched
    requires { 0 < count → (ws : List ℕ) × Valid first (memory threads.old queue.old prios.old log.old ws) }
    ensures { (ws : List ℕ) → SpawnsDone count first result
        (memory threads.old queue.old prios.old log.old ws)
        (memory threads.new queue.new prios.new log.new ws) }
{
    let parent = Some(Tid(0));
    let mut last = first;
    for _ in 0..count {
        let a = spawn(last, parent, 0, threads, queue, prios, log);
        last = a.sched;
    }
    last
}

// How many of so many calls are made: none where `new` is refused.
fn calls_due(created: Created, n: usize) -> usize
    ensures { result ≡ due (check_meant created.answer) n }
{
    match created.answer {
        Ok(()) => n,
        Err(_) => 0,
    }
}

// A scheduler is made, thread 0 spawns `count` threads, and `ticks` ticks pass.
pub fn run_load(
    config: SchedConfig,
    cores: u32,
    capacities: Capacities,
    count: usize,
    ticks: usize,
    m: &mut LentMemory,
) -> Loaded
    ensures done { LoadDone config cores capacities count ticks (held m.old) (held m.new) result }
    ensures lent { SameLoans m.old m.new }
{
    let created = new_on(config, cores, capacities, 0, m);
    let spawns = calls_due(created, count);
    let threads = &mut *m.threads;
    let queue = &mut *m.queue;
    let prios = &mut *m.prios;
    let log = &mut *m.log;
    let first = spawn_all(created.sched, spawns, threads, queue, prios, log);
    let turns = calls_due(created, ticks);
    let lanes = &mut *m.lanes;
    let last = run_ticks(first, turns, threads, queue, prios, log, lanes);
    Loaded {
        made: created.answer,
        sched: last,
    }
}
