// What each call refuses, in 01's order: a ladder of early returns.
// Its public functions are parts for other crates: no host calls them.
#![tactic(auto)]

ghost use Rattle.std.specs.Prelude.{◌≡◌, ◌≤◌};
ghost use Rattle.std.proofs.Math.Option.{none};
ghost use Rattle.model.specs.Reading.{core_state_meant};
ghost use Rattle.checks.specs.Check.{check_meant, stops, needs_running, core_refusal, spawn_refusal, tick_refusal, retired_refusal, priority_refusal, timing_refusal};

use model::{CoreId, CoreState, Tid};
use settings::{Refusal, SchedConfig};
use state::{Sched, state_at};

// Ticks and the yields of a thread go up to this.
pub const LIMIT: u64 = 4_000_000_000;

// spawn: 11, 17
pub fn check_spawn(s: Sched) -> Result<(), Refusal>
    ensures { check_meant result ≡ spawn_refusal s }
{
    if s.closed {
        return Err(Refusal::Closed);
    }
    if s.capacities.threads <= s.threads {
        return Err(Refusal::ThreadsFull);
    }
    Ok(())
}

// tick: 11, 18
pub fn check_tick(s: Sched) -> Result<(), Refusal>
    ensures { check_meant result ≡ tick_refusal s }
{
    if s.closed {
        return Err(Refusal::Closed);
    }
    if LIMIT <= s.now.0 {
        return Err(Refusal::ClockLimit);
    }
    Ok(())
}

// retired: 4, 11
pub fn check_retired(s: Sched, core: CoreId) -> Result<(), Refusal>
    ensures { check_meant result ≡ retired_refusal s core.0 }
{
    let i = core.0 as usize;
    if s.cores <= i {
        return Err(Refusal::NoCore);
    }
    if s.closed {
        return Err(Refusal::Closed);
    }
    Ok(())
}

// priority: 5, 11
pub fn check_priority(s: Sched, tid: Tid) -> Result<(), Refusal>
    ensures { check_meant result ≡ priority_refusal s tid.0 }
{
    let t = tid.0 as usize;
    if s.threads <= t {
        return Err(Refusal::NoThread);
    }
    if s.closed {
        return Err(Refusal::Closed);
    }
    Ok(())
}

// set_timing: 1, 11
pub fn check_timing(s: Sched, quantum: u32, switch_cost: u32) -> Result<(), Refusal>
    ensures { check_meant result ≡ timing_refusal s quantum switch_cost }
{
    if SchedConfig::MAX_QUANTUM < quantum {
        return Err(Refusal::SettingRange);
    }
    if SchedConfig::MAX_SWITCH_COST < switch_cost {
        return Err(Refusal::SettingRange);
    }
    if s.closed {
        return Err(Refusal::Closed);
    }
    Ok(())
}

// What a call asks of its core: that it holds a thread, running or switching in, or that it runs one.
#[derive(Clone, Copy, PartialEq, Eq, Debug)]
pub enum Needs {
    Held,
    Running,
}

impl Needs {
    // Whether a core in this state stops the call.
    pub fn is_stopped_by(self, state: CoreState) -> bool
        ensures { result ≡ stops (needs_running self) (core_state_meant state) }
    {
        match self {
            Needs::Held => state.is_idle(),
            Needs::Running => !state.is_running(),
        }
    }
}

// exit and close (held), join and yield (running): 4, 11, 12, 13
pub fn check_core(s: Sched, core: CoreId, needs: Needs) -> Result<(), Refusal>
    requires { s.cores ≤ 8 }
    ensures { check_meant result ≡ core_refusal s core.0 (needs_running needs) none }
{
    let i = core.0 as usize;
    if s.cores <= i {
        return Err(Refusal::NoCore);
    }
    if s.closed {
        return Err(Refusal::Closed);
    }
    if s.marks.exits[i] {
        return Err(Refusal::Leaving);
    }
    if s.marks.blocks[i] {
        return Err(Refusal::Leaving);
    }
    if needs.is_stopped_by(state_at(s.states, i)) {
        return Err(Refusal::NotRunning);
    }
    Ok(())
}
