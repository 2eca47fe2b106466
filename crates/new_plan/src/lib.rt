// The parts of the call `new` that hold no thread record: what it refuses, the first state, and what is written of priorities and log.
// Its public functions are parts for other crates: no host calls them.
#![tactic(auto)]

ghost use Rattle.std.specs.Prelude.{◌≡◌, ◌||◌, [], ◌∷◌, ◌++◌, ◌*◌, ◌<◌, ◌≤◌, length, take};
ghost use Rattle.model.specs.Accounting.{newest};
ghost use Rattle.rings.specs.Ring.{RingOK, capacity};
ghost use Rattle.rings.specs.Events.{events_in};
ghost use Rattle.settings.specs.Policy.{beyond};
ghost use Rattle.checks.specs.Check.{check_meant};
ghost use Rattle.new_plan.specs.First.{core_count, bad_capacity, is_short, new_refusal, taken_count, first_sched, first_events, FirstLogged, CreateFit, CreatedAs};

use model::{CoreId, CoreTicks, SchedEvent, SchedEventKind, Tick, Tid};
use rings::RingPos;
use rings::events::push_event;
use settings::numbers::is_beyond;
use settings::{Refusal, SchedConfig};
use state::{Capacities, CoreWords, Sched, others_idle};
use turns::Marks;

// The state that `new` leaves, with its answer.
#[derive(Clone, Copy)]
pub struct Created {
    pub sched: Sched,
    pub answer: Result<(), Refusal>,
}

// "0 counts as 1."
fn core_count(cores: u32) -> usize
    ensures { result ≡ core_count cores }
{
    cores.max(1) as usize
}

#[tactic(auto, unfolding(crate::specs::First::bad_capacity))]
fn is_bad_capacity(capacities: Capacities) -> bool
    ensures { result ≡ bad_capacity capacities }
{
    is_beyond(1, 256, capacities.threads as u64)
        || is_beyond(1, 512, capacities.events as u64)
        || is_beyond(1, 4096, capacities.segments as u64)
}

// Whether the memory that the host lends is too small for the capacities.
#[tactic(auto, unfolding(crate::specs::First::is_short))]
fn is_short(
    capacities: Capacities,
    cores: u32,
    threads: usize,
    queue: usize,
    prios: usize,
    log: usize,
    lanes: usize,
) -> bool
    requires { (cores ≤ 8) × (capacities.events ≤ 512) × (capacities.segments ≤ 4096) }
    ensures { result ≡ is_short capacities cores threads queue prios log lanes }
{
    threads < capacities.threads
        || queue < capacities.threads
        || prios < capacities.threads
        || log < 2 * capacities.events
        || lanes < 80 + core_count(cores) * (2 * capacities.segments)
}

// new: 1, 2, 3
pub fn check_new(
    config: SchedConfig,
    cores: u32,
    capacities: Capacities,
    threads: usize,
    queue: usize,
    prios: usize,
    log: usize,
    lanes: usize,
) -> Result<(), Refusal>
    ensures { check_meant result ≡ new_refusal config cores capacities threads queue prios log lanes }
{
    if is_beyond(1, SchedConfig::MAX_QUANTUM as u64, config.quantum as u64) {
        return Err(Refusal::SettingRange);
    }
    if SchedConfig::MAX_SWITCH_COST < config.switch_cost {
        return Err(Refusal::SettingRange);
    }
    if 8 < cores {
        return Err(Refusal::CoreCount);
    }
    if is_bad_capacity(capacities) {
        return Err(Refusal::Capacity);
    }
    if is_short(capacities, cores, threads, queue, prios, log, lanes) {
        return Err(Refusal::Capacity);
    }
    Ok(())
}

// How many records are written: one, or none where the call is refused.
pub fn taken_count(answer: Result<(), Refusal>) -> usize
    ensures { result ≡ taken_count (check_meant answer) }
{
    match answer {
        Ok(()) => 1,
        Err(_) => 0,
    }
}

// "`new` starts thread 0 running on core 0": the state without its log.
fn first_sched(config: SchedConfig, cores: u32, capacities: Capacities) -> Sched
    ensures { result ≡ first_sched config cores capacities }
{
    let none = CoreTicks {
        busy: 0,
        switching: 0,
        idle: 0,
    };
    let empty = RingPos { last: 0, len: 0 };
    let running = CoreWords {
        kind: 2,
        tid: 0,
        count: 0,
    };
    Sched {
        config,
        capacities,
        cores: core_count(cores),
        threads: 1,
        queued: 0,
        now: Tick(0),
        context_switches: 0,
        closed: false,
        states: others_idle(running),
        marks: Marks {
            exits: [false; 8],
            blocks: [false; 8],
            yields: [false; 8],
            progressed: [false; 8],
        },
        ticks: [none; 8],
        log: empty,
        lanes: [empty; 8],
    }
}

// The first thread's spawn and dispatch.
fn push_first(ring: &mut [u64], pos: RingPos) -> RingPos
    requires { RingOK ring.old pos × (pos.len ≡ 0) }
    ensures ok { RingOK ring.new result }
    ensures events { events_in ring.new result ≡ first_events (capacity ring.old) }
{
    let spawn = SchedEvent {
        tick: Tick(0),
        tid: Tid(0),
        kind: SchedEventKind::Spawn { parent: None },
    };
    let dispatch = SchedEvent {
        tick: Tick(0),
        tid: Tid(0),
        kind: SchedEventKind::Dispatch { core: CoreId(0) },
    };
    let next = push_event(ring, pos, spawn);
    push_event(ring, next, dispatch)
}

// The ring of events is in the first `words` words of the log's memory.
fn log_first(log: &mut [u64], words: usize) -> RingPos
    requires { (words ≤ length log.old) × RingOK (take words log.old) (record { last = 0; len = 0 }) }
    ensures { FirstLogged words log.old log.new result }
{
    let empty = RingPos { last: 0, len: 0 };
    push_first(&mut log[..words], empty)
}

// The call's end: thread 0's priority, its two events, the state.
pub fn new_finished(
    config: SchedConfig,
    cores: u32,
    capacities: Capacities,
    answer: Result<(), Refusal>,
    prios: &mut [u32],
    log: &mut [u64],
) -> Created
    requires { CreateFit capacities (check_meant answer) prios.old log.old }
    ensures { CreatedAs config cores capacities answer prios.old prios.new log.old log.new result.sched result.answer }
{
    let first = first_sched(config, cores, capacities);
    match answer {
        Err(_) => Created {
            sched: first,
            answer,
        },
        Ok(()) => {
            prios[0] = 10;
            let words = 2 * capacities.events;
            let pos = log_first(log, words);
            let mut next = first;
            next.log = pos;
            Created {
                sched: next,
                answer,
            }
        }
    }
}
