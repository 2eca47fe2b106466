// The parts of the call `close` that hold no thread record. "`close` does `exit` and phase 1": the first is the call `exit`, at a core that is not
// there where `close` is refused; the second is here, but for the records.
// Its public functions are parts for other crates: no host calls them.
#![tactic(auto)]

ghost use Rattle.std.specs.Prelude.{◌≡◌, ◌≤◌};
ghost use Rattle.checks.specs.Check.{check_meant};
ghost use Rattle.close_plan.specs.Close.{close_refusal, close_core, charged_threads, closed_sched, PhaseFits, ClosedOf, CloseFits, CloseFinished};

use checks::{LIMIT, Needs, check_core};
use model::{CoreId, Tick};
use phases::phase1;
use sched_marks::Answered;
use settings::Refusal;
use state::{Eight, Sched, pack, unpack};
use tick_plan::Charged;
use tick_plan::tick::{charge, next_tick};
use turns::Marks;

// There are at most eight cores: a core that is not there.
const NO_CORE: u32 = 8;

// close: 4, 11, 12, 13, 18
fn check_close(s: Sched, core: CoreId) -> Result<(), Refusal>
    requires { s.cores ≤ 8 }
    ensures { check_meant result ≡ close_refusal s core.0 }
{
    check_core(s, core, Needs::Held)?;
    if LIMIT <= s.now.0 {
        return Err(Refusal::ClockLimit);
    }
    Ok(())
}

// The core whose thread exits.
pub fn close_core(s: Sched, core: CoreId) -> CoreId
    requires { s.cores ≤ 8 }
    ensures { result ≡ close_core s core.0 }
{
    match check_close(s, core) {
        Err(_) => CoreId(NO_CORE),
        Ok(()) => core,
    }
}

// Once the thread has exited: how many threads phase 1 charges, none where the exit was refused.
pub fn charged_threads(e: Answered<()>) -> usize
    ensures { result ≡ charged_threads e }
{
    match e.answer {
        Err(_) => 0,
        Ok(()) => e.sched.threads,
    }
}

// The state after phase 1: closed, the marks of exit, block and yield cleared. The progressed marks stay (docs/DECISIONS.md).
fn closed_sched(s: Sched, tick: Tick, c: Charged, states: Eight) -> Sched
    ensures { result ≡ closed_sched s tick c states }
{
    let Charged { ticks, lanes } = c;
    Sched {
        now: tick,
        closed: true,
        states,
        marks: Marks {
            exits: [false; 8],
            blocks: [false; 8],
            yields: [false; 8],
            ..s.marks
        },
        ticks,
        lanes,
        ..s
    }
}

// Phase 1 on a state, and nothing decided after it.
fn closed(s: Sched, lanes: &mut [u64]) -> Sched
    requires { PhaseFits s lanes.old }
    ensures { ClosedOf s lanes.old lanes.new result }
{
    let charged = charge(s, lanes);
    let sliced = phase1(unpack(s.states), s.cores);
    closed_sched(s, next_tick(s), charged, pack(sliced))
}

// The call's end, with e what the exit left.
pub fn close_finished(s: Sched, core: CoreId, e: Answered<()>, lanes: &mut [u64]) -> Answered<()>
    requires { CloseFits s core.0 e lanes.old }
    ensures { CloseFinished s core.0 e lanes.old lanes.new result.sched result.answer }
{
    let answer = check_close(s, core);
    match answer {
        Err(_) => Answered { sched: s, answer },
        Ok(()) => Answered {
            sched: closed(e.sched, lanes),
            answer,
        },
    }
}
