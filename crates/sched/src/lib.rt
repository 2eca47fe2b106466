// Any call applied to the scheduler: one function for lists of calls, scripts and traces.
// `apply` is for hosts; what `answers` has are parts.
#![tactic(auto)]

pub mod answers;

ghost use Rattle.state.specs.Memory.{held, SameLoans};
ghost use Rattle.state.specs.State.{Valid};
ghost use Rattle.tick_plan.specs.DoneWith.{DoneWith};
ghost use Rattle.sched.specs.Meant.{call_meant, outcome_meant};

use answers::{of_answered, of_taken, of_ticked};
use model::{CoreId, JoinOutcome, Tid};
use sched_close::close;
use sched_exit::exit;
use sched_force::force_switch;
use sched_marks::marks::{retired, set_timing};
use sched_threads::{join, set_priority, spawn, yield_now};
use sched_tick::end_tick;
use settings::Refusal;
use state::Sched;
use state::memory::LentMemory;
use switches::SwitchList;

// A call with its arguments.
#[derive(Clone, Copy)]
pub enum Call {
    Spawn(Option<Tid>, u32),
    Exit(CoreId),
    Join(CoreId, Tid),
    Retired(CoreId),
    YieldNow(CoreId),
    SetPriority(Tid, u32),
    SetTiming(u32, u32),
    ForceSwitch(CoreId, Option<Tid>),
    EndTick,
    Close(CoreId),
}

// How a call was taken. After `Switched` the switch list has the entries; otherwise it has none.
#[derive(Clone, Copy)]
pub enum Outcome {
    Taken,
    Spawned(Tid),
    Joined(JoinOutcome),
    Switched,
}

// The state that a call leaves, with what it says.
#[derive(Clone, Copy)]
pub struct Applied {
    pub sched: Sched,
    pub outcome: Result<Outcome, Refusal>,
    pub switches: SwitchList,
}

// The call is done on the state and the lent memory, as the definition's `step` does it.
pub fn apply(s: Sched, call: Call, m: &mut LentMemory) -> Applied
    requires { Valid s (held m.old) }
    ensures done { DoneWith (call_meant call) (outcome_meant result.outcome result.switches) result.switches s result.sched (held m.old) (held m.new) }
    ensures lent { SameLoans m.old m.new }
{
    let threads = &mut *m.threads;
    let queue = &mut *m.queue;
    let prios = &mut *m.prios;
    let log = &mut *m.log;
    let lanes = &mut *m.lanes;
    match call {
        Call::Spawn(parent, entry_pc) => {
            let a = spawn(s, parent, entry_pc, threads, queue, prios, log);
            of_answered(a, Outcome::Spawned)
        }
        // Here and at `Close` a copy: the callee is not inlined and takes its address. Without it every call would store the state first.
        Call::Exit(core) => {
            let t = s;
            of_taken(exit(t, core, threads, queue, log))
        }
        Call::Join(core, target) => of_answered(join(s, core, target, threads), Outcome::Joined),
        Call::Retired(core) => of_taken(retired(s, core)),
        Call::YieldNow(core) => of_taken(yield_now(s, core, threads)),
        Call::SetPriority(tid, number) => {
            of_taken(set_priority(s, tid, number, threads, prios, log))
        }
        Call::SetTiming(quantum, switch_cost) => { of_taken(set_timing(s, quantum, switch_cost)) }
        Call::ForceSwitch(core, named) => of_ticked(force_switch(
            s, core, named, threads, queue, prios, log, lanes,
        )),
        Call::EndTick => of_ticked(end_tick(s, threads, queue, prios, log, lanes)),
        Call::Close(core) => {
            let t = s;
            of_taken(close(t, core, threads, queue, log, lanes))
        }
    }
}
