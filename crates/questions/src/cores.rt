// What the cores do.
ghost use Rattle.std.specs.Prelude.{◌≡◌, ◌++◌, map, ◌-◌, length, replicate};
ghost use Rattle.std.proofs.Math.ListN.{get_elem?};
ghost use Rattle.model.specs.Types.{Idle};
ghost use Rattle.model.specs.Phases.{holder};
ghost use Rattle.model.specs.Calls.{core_state_of};
ghost use Rattle.model.specs.Questions.{runner, running_on, thread_on, core_of};
ghost use Rattle.model.specs.Accounting.{is_holder};
ghost use Rattle.model.specs.Reading.{core_state_meant, option_tid_meant, option_core_meant};
ghost use Rattle.state.specs.Asked.{Askable, Answers, nothing};
ghost use Rattle.questions.specs.Questions.{core_states};
ghost use Rattle.questions.specs.Reading.{option_ticks_meant};

use model::{CoreId, CoreState, CoreTicks, Tid};
use state::{Sched, state_at, unpack};

// What a core does; idle where there is none.
pub fn core_state(s: Sched, core: CoreId) -> CoreState
    ensures { Answers s nothing (λ d. core_state_meant result ≡ core_state_of d core.0) }
{
    state_at(s.states, core.0 as usize)
}

// What each core does, and idle behind the last of them (`core_count`).
pub fn cores(s: Sched) -> [CoreState; 8]
    ensures { Answers s nothing (λ d. map core_state_meant result ≡ core_states d ++ replicate (8 - length d.cores) Idle) }
{
    unpack(s.states)
}

pub fn core_count(s: Sched) -> usize
    ensures { Answers s nothing (λ d. result ≡ length d.cores) }
{
    s.cores
}

#[tactic(auto, unfolding(model::specs::Questions::runner))]
fn running_in(state: CoreState) -> Option<Tid>
    ensures { option_tid_meant result ≡ runner (core_state_meant state) }
{
    match state {
        CoreState::Idle | CoreState::Switching { .. } => None,
        CoreState::Running { tid, .. } => Some(tid),
    }
}

// The thread that a core executes; a core that switches to one holds it but does not execute it yet.
pub fn running_on(s: Sched, core: CoreId) -> Option<Tid>
    ensures { Answers s nothing (λ d. option_tid_meant result ≡ running_on d core.0) }
{
    running_in(core_state(s, core))
}

// The thread on a core, running or switching in.
pub fn thread_on(s: Sched, core: CoreId) -> Option<Tid>
    ensures { Answers s nothing (λ d. option_tid_meant result ≡ thread_on d core.0) }
{
    core_state(s, core).tid()
}

// One core's counters.
pub fn core_ticks(s: Sched, core: CoreId) -> Option<CoreTicks>
    requires { Askable s nothing }
    ensures { Answers s nothing (λ d. option_ticks_meant result ≡ get_elem? d.accounts.ticks core.0) }
{
    let i = core.0 as usize;
    if s.cores <= i {
        return None;
    }
    Some(s.ticks[i])
}

#[tactic(auto, unfolding(model::specs::Accounting::is_holder))]
fn is_held_by(state: CoreState, tid: Tid) -> bool
    ensures { result ≡ is_holder tid.0 (holder (core_state_meant state)) }
{
    match state {
        CoreState::Idle => false,
        CoreState::Switching { tid: t, .. } | CoreState::Running { tid: t, .. } => t.0 == tid.0,
    }
}

// The core that a thread is on, running or switching in. A core that is not there is idle, so all eight are looked at.
pub fn core_of(s: Sched, tid: Tid) -> Option<CoreId>
    ensures { Answers s nothing (λ d. option_core_meant result ≡ core_of d tid.0) }
{
    for (i, state) in unpack(s.states).iter().enumerate() {
        if is_held_by(*state, tid) {
            return Some(CoreId(i as u32));
        }
    }
    None
}
