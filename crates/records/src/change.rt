// Every way in which one thread's record changes.
ghost use Rattle.std.specs.Prelude.{◌≡◌, ℕ, ◌+◌, ◌<◌, ◌^◌};
ghost use Rattle.std.proofs.Math.Option.{none, some};
ghost use Rattle.model.specs.Reading.{thread_meant, thread_state_meant, reason_meant, option_tid_meant, option_tick_meant, option_core_meant, option_leave_meant, times_meant, counts_meant};
ghost use Rattle.model.specs.Types.{Ready, Exited};
ghost use Rattle.model.specs.Accounting.{add_counts, set_state, set_priority, set_last, set_times, finished, started, record_leave, record_dispatch, left, born, or_else};
ghost use Rattle.records.specs.Waking.{woken_state, woken_by};
ghost use Rattle.records.specs.Changes.{change_meant, Fits, first_thread};

use model::{CoreId, LastLeave, LeaveReason, ThreadInfo, ThreadState, ThreadStats, Tick, Tid};

#[derive(Clone, Copy, PartialEq, Eq, Debug)]
pub enum Change {
    Exit {
        now: Tick,
    },
    Block {
        on: Tid,
    },
    Wake,
    Yield,
    Priority(u32),
    Start {
        now: Tick,
    },
    Leave {
        now: Tick,
        core: CoreId,
        reason: LeaveReason,
    },
    Dispatch {
        now: Tick,
        core: CoreId,
    },
    // A new thread takes the place, whatever stood there.
    Born {
        tid: Tid,
        parent: Option<Tid>,
        entry_pc: u32,
        priority: u32,
        now: Tick,
    },
    Keep,
}

// ---- the changes
fn with_state(t: ThreadInfo, state: ThreadState) -> ThreadInfo
    ensures { thread_meant result ≡ set_state (thread_state_meant state) (thread_meant t) }
{
    ThreadInfo { state, ..t }
}

#[tactic(auto, unfolding(model::specs::Accounting::finished))]
fn exited(mut t: ThreadInfo, now: Tick) -> ThreadInfo
    requires { now.0 + 1 < 2 ^ 64 }
    ensures { thread_meant result ≡ finished now.0 (thread_meant t) }
{
    t.state = ThreadState::Exited;
    t.stats.finish = Some(Tick(now.0 + 1));
    t
}

#[tactic(auto, unfolding(model::specs::Accounting::add_counts))]
fn yielded(mut t: ThreadInfo) -> ThreadInfo
    requires { (thread_meant t).counts.yields + 1 < 2 ^ 64 }
    ensures { thread_meant result ≡ add_counts 0 0 0 0 0 1 (thread_meant t) }
{
    t.stats.yields += 1;
    t
}

#[tactic(auto, unfolding(model::specs::Accounting::started, model::specs::Accounting::or_else))]
pub fn ran_first(mut t: ThreadInfo, now: Tick) -> ThreadInfo
    ensures { thread_meant result ≡ started now.0 (thread_meant t) }
{
    t.stats.first_run = t.stats.first_run.or(Some(now));
    t
}

#[tactic(auto, unfolding(model::specs::Accounting::add_counts))]
fn preempted(mut t: ThreadInfo) -> ThreadInfo
    requires { (thread_meant t).counts.preemptions + 1 < 2 ^ 64 }
    ensures { thread_meant result ≡ set_state Ready (add_counts 0 0 0 0 1 0 (thread_meant t)) }
{
    t.state = ThreadState::Ready;
    t.stats.preemptions += 1;
    t
}

// What a leave makes of the state and the counters.
#[tactic(auto, unfolding(model::specs::Accounting::left))]
fn off_core(t: ThreadInfo, reason: LeaveReason) -> ThreadInfo
    requires { (thread_meant t).counts.preemptions + 1 < 2 ^ 64 }
    ensures { thread_meant result ≡ left (reason_meant reason) (thread_meant t) }
{
    match reason {
        LeaveReason::Exit | LeaveReason::Block => t,
        LeaveReason::Yield => with_state(t, ThreadState::Ready),
        LeaveReason::Quantum | LeaveReason::Preempt | LeaveReason::Forced => preempted(t),
    }
}

#[tactic(auto, unfolding(model::specs::Accounting::record_leave))]
pub fn departed(t: ThreadInfo, now: Tick, core: CoreId, reason: LeaveReason) -> ThreadInfo
    requires { (thread_meant t).counts.preemptions + 1 < 2 ^ 64 }
    ensures { thread_meant result ≡ record_leave now.0 core.0 (reason_meant reason) (thread_meant t) }
{
    ThreadInfo {
        last_leave: Some(LastLeave {
            tick: now,
            core,
            reason,
        }),
        ..off_core(t, reason)
    }
}

#[tactic(auto, unfolding(model::specs::Accounting::record_dispatch, model::specs::Accounting::add_counts))]
pub fn dispatched(mut t: ThreadInfo, now: Tick, core: CoreId) -> ThreadInfo
    requires { (thread_meant t).counts.dispatches + 1 < 2 ^ 64 }
    ensures { thread_meant result ≡ record_dispatch now.0 core.0 (thread_meant t) }
{
    t.state = ThreadState::Running(core);
    t.last_core = Some(core);
    t.last_dispatch = Some(now);
    t.stats.dispatches += 1;
    t
}

#[tactic(auto, unfolding(crate::specs::Changes::change_meant))]
pub fn changed(t: ThreadInfo, c: Change) -> ThreadInfo
    requires { Fits c (thread_meant t) }
    ensures { thread_meant result ≡ change_meant c (thread_meant t) }
{
    match c {
        Change::Exit { now } => exited(t, now),
        Change::Block { on } => with_state(t, ThreadState::Blocked(on)),
        Change::Wake => with_state(t, ThreadState::Ready),
        Change::Yield => yielded(t),
        Change::Priority(priority) => ThreadInfo { priority, ..t },
        Change::Start { now } => ran_first(t, now),
        Change::Leave { now, core, reason } => departed(t, now, core, reason),
        Change::Dispatch { now, core } => dispatched(t, now, core),
        Change::Born {
            tid,
            parent,
            entry_pc,
            priority,
            now,
        } => new_thread(tid, parent, entry_pc, priority, now),
        Change::Keep => t,
    }
}

fn woken_state(state: ThreadState, on: Tid) -> ThreadState
    ensures { thread_state_meant result ≡ woken_state on.0 (thread_state_meant state) }
{
    match state {
        ThreadState::Blocked(tid) if tid == on => ThreadState::Ready,
        _ => state,
    }
}

// A thread that waits for `on` is ready again; any other is as it was. The record is made anew in both cases: a branch costs more.
#[tactic(auto, unfolding(crate::specs::Waking::woken_by))]
pub fn woken(mut t: ThreadInfo, on: Tid) -> ThreadInfo
    ensures { thread_meant result ≡ woken_by on.0 (thread_meant t) }
{
    t.state = woken_state(t.state, on);
    t
}

// ---- new records
#[tactic(auto, unfolding(model::specs::Accounting::born))]
pub fn new_thread(
    tid: Tid,
    parent: Option<Tid>,
    entry_pc: u32,
    priority: u32,
    now: Tick,
) -> ThreadInfo
    ensures { thread_meant result ≡ born tid.0 (option_tid_meant parent) entry_pc priority now.0 }
{
    ThreadInfo {
        tid,
        parent,
        entry_pc,
        priority,
        state: ThreadState::Ready,
        last_core: None,
        last_dispatch: None,
        last_leave: None,
        stats: ThreadStats {
            arrival: now,
            first_run: None,
            finish: None,
            run_ticks: 0,
            ready_ticks: 0,
            blocked_ticks: 0,
            dispatches: 0,
            preemptions: 0,
            yields: 0,
        },
    }
}

// Thread 0, as a new scheduler has it: running on core 0.
pub fn first_thread(entry_pc: u32) -> ThreadInfo
    ensures { thread_meant result ≡ first_thread entry_pc }
{
    let t = new_thread(Tid(0), None, entry_pc, 10, Tick(0));
    ran_first(dispatched(t, Tick(0), CoreId(0)), Tick(0))
}
