// A board of one core and three threads: thread 0 runs, 1 and 2 wait. Answers, switches, queue, core, counters and clock are what the original Rust
// showed on the same calls, refusals the paper's. How many moves there are is the definition's: a leave, a take, a start. The records are as they were
// lent, since to change them is left to the caller.
ghost use Rattle.std.specs.Prelude.{IfOk};
ghost use Rattle.state.specs.Memory.{held, SameLoans};
ghost use Rattle.state.specs.State.{Valid};

use force_plan::force::force_decided;
use model::{CoreId, CoreState, LeaveReason, Switch, SwitchOut, ThreadState, Tid};
use records::change::first_thread;
use sched::{Call, apply};
use sched_new::new_on;
use settings::{Refusal, SchedConfig, SchedPolicy};
use state::memory::LentMemory;
use state::{Capacities, Sched, state_at};
use tick_plan::Decided;
use tick_plan::tick::tick_decided;

#[derive(Clone, Copy)]
enum Case {
    // of a tick in which thread 0 made this call
    Tick(Call),
    Force(CoreId, Option<Tid>),
}

// What was decided, the front of the queue and the core that it left, and of the records the states and how long thread 0 ran.
#[derive(Clone, Copy, PartialEq, Eq, Debug)]
struct Seen {
    answer: Result<(), Refusal>,
    switches: usize,
    first: Switch,
    moves: usize,
    now: u64,
    context_switches: u64,
    queue: [u32; 2],
    queued: usize,
    core: CoreState,
    states: [ThreadState; 3],
    run_ticks: u64,
}

fn three_threads(m: &mut LentMemory) -> Result<Sched, Refusal>
    ensures valid { IfOk result (λ s. Valid s (held m.new)) }
    ensures lent { SameLoans m.old m.new }
{
    let config = SchedConfig {
        policy: SchedPolicy::RoundRobin,
        quantum: 5,
        switch_cost: 0,
    };
    let capacities = Capacities {
        threads: 3,
        events: 8,
        segments: 2,
    };
    let created = new_on(config, 1, capacities, 0, m);
    match created.answer {
        Err(refusal) => Err(refusal),
        Ok(()) => {
            let first = apply(created.sched, Call::Spawn(None, 7), m);
            let second = apply(first.sched, Call::Spawn(None, 7), m);
            Ok(second.sched)
        }
    }
}

fn decide(s: Sched, case: Case, m: &mut LentMemory) -> Decided
    requires { Valid s (held m.old) }
    ensures { SameLoans m.old m.new }
{
    match case {
        Case::Tick(call) => {
            let called = apply(s, call, m);
            tick_decided(called.sched, m)
        }
        Case::Force(core, named) => force_decided(s, core, named, m),
    }
}

fn run(case: Case) -> Result<Seen, Refusal> {
    let mut threads = [first_thread(0); 3];
    let mut queue = [0u32; 3];
    let mut prios = [0u32; 3];
    let mut log = [0u64; 16];
    let mut lanes = [0u64; 84];
    let mut m = LentMemory {
        threads: &mut threads,
        queue: &mut queue,
        prios: &mut prios,
        log: &mut log,
        lanes: &mut lanes,
    };
    let s = three_threads(&mut m)?;
    let d = decide(s, case, &mut m);
    Ok(Seen {
        answer: d.answer,
        switches: d.switches.count,
        first: d.switches.entries[0],
        moves: d.moves,
        now: d.sched.now.0,
        context_switches: d.sched.context_switches,
        queue: [queue[0], queue[1]],
        queued: d.sched.queued,
        core: state_at(d.sched.states, 0),
        states: [threads[0].state, threads[1].state, threads[2].state],
        run_ticks: threads[0].stats.run_ticks,
    })
}

// The board as it is lent, where nothing is decided.
fn nothing(answer: Result<(), Refusal>) -> Seen {
    Seen {
        answer,
        switches: 0,
        first: Switch {
            core: CoreId(0),
            out: None,
            inn: None,
        },
        moves: 0,
        now: 0,
        context_switches: 0,
        queue: [1, 2],
        queued: 2,
        core: CoreState::Running {
            tid: Tid(0),
            slice: 0,
        },
        states: [
            ThreadState::Running(CoreId(0)),
            ThreadState::Ready,
            ThreadState::Ready,
        ],
        run_ticks: 0,
    }
}

// Core 0 goes from thread 0 to another: one leaves, one takes the core and starts.
fn changed(reason: LeaveReason, inn: Tid, queue: [u32; 2], now: u64) -> Seen {
    Seen {
        switches: 1,
        first: Switch {
            core: CoreId(0),
            out: Some(SwitchOut {
                tid: Tid(0),
                reason,
            }),
            inn: Some(inn),
        },
        moves: 3,
        now,
        context_switches: 1,
        queue,
        core: CoreState::Running { tid: inn, slice: 0 },
        ..nothing(Ok(()))
    }
}

#[test]
fn tick_decided_moves_no_record(rt: HostRuntime) {
    let want = changed(LeaveReason::Yield, Tid(1), [2, 0], 1);
    assert_eq!(rt; run(Case::Tick(Call::YieldNow(CoreId(0)))), Ok(want));
}

// What `close` did, and nothing more.
#[test]
fn tick_decided_refuses_after_close(rt: HostRuntime) {
    let want = Seen {
        now: 1,
        core: CoreState::Running {
            tid: Tid(0),
            slice: 1,
        },
        states: [ThreadState::Exited, ThreadState::Ready, ThreadState::Ready],
        run_ticks: 1,
        ..nothing(Err(Refusal::Closed))
    };
    assert_eq!(rt; run(Case::Tick(Call::Close(CoreId(0)))), Ok(want));
}

#[test]
fn force_decided_moves_no_record(rt: HostRuntime) {
    let want = changed(LeaveReason::Forced, Tid(2), [1, 0], 0);
    assert_eq!(rt; run(Case::Force(CoreId(0), Some(Tid(2)))), Ok(want));
    let next = changed(LeaveReason::Forced, Tid(1), [2, 0], 0);
    assert_eq!(rt; run(Case::Force(CoreId(0), None)), Ok(next));
}

#[test]
fn force_decided_refuses_another_core(rt: HostRuntime) {
    let want = nothing(Err(Refusal::NoCore));
    assert_eq!(rt; run(Case::Force(CoreId(1), None)), Ok(want));
}
