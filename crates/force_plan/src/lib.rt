// What `force_switch` does beside the thread records: it refuses, or decides and writes the log. The records are moved by the crate above,
// which holds the lent slice.
// Its public functions are parts for other crates: no host calls them.
#![tactic(auto)]

pub mod force;

ghost use Rattle.std.specs.Prelude.{◌≡◌, ◌≤◌, unwrap_or, IfOk};
ghost use Rattle.settings.specs.Reading.{refusal_number};
ghost use Rattle.model.specs.Calls.{any_leaving};
ghost use Rattle.model.specs.Reading.{option_tid_meant};
ghost use Rattle.decide.specs.Forced.{absent};
ghost use Rattle.state.specs.State.{firsts, board_of};
ghost use Rattle.force_plan.specs.Plan.{place_check_meant, force_refusal};

use checks::LIMIT;
use model::{CoreId, Tid};
use settings::Refusal;
use state::{Sched, state_at};

// Whether a core's thread exited or blocked in this tick.
fn any_leaving(s: Sched) -> bool
    requires { s.cores ≤ 8 }
    ensures { result ≡ any_leaving (firsts (board_of s) s.cores) }
{
    let exits = s.marks.exits;
    let blocks = s.marks.blocks;
    for i in 0..s.cores {
        if exits[i] || blocks[i] {
            return true;
        }
    }
    false
}

// 15 where a thread is named, 16 where none is.
fn nobody(named: Option<Tid>) -> Refusal
    ensures { refusal_number result ≡ absent (option_tid_meant named) }
{
    match named {
        None => Refusal::NobodyWaits,
        Some(_) => Refusal::NotReady,
    }
}

// force_switch: 4, 11, 12 on any core, 14, 15 or 16, 19; `at` is the place in the queue of the thread that is asked for, and that is what a call that is
// taken goes on with.
pub fn check_force(
    s: Sched,
    core: CoreId,
    named: Option<Tid>,
    at: Option<usize>,
) -> Result<usize, Refusal>
    requires { s.cores ≤ 8 }
    ensures refusal { place_check_meant result ≡ force_refusal s core.0 (option_tid_meant named) (unwrap_or at s.queued) }
    ensures place { IfOk result (λ place. place ≡ unwrap_or at s.queued) }
{
    let i = core.0 as usize;
    if s.cores <= i {
        return Err(Refusal::NoCore);
    }
    if s.closed {
        return Err(Refusal::Closed);
    }
    if any_leaving(s) {
        return Err(Refusal::Leaving);
    }
    if state_at(s.states, i).is_switching() {
        return Err(Refusal::StillSwitching);
    }
    let at = match at {
        Some(at) if at < s.queued => at,
        _ => return Err(nobody(named)),
    };
    if 10 * LIMIT <= s.context_switches {
        return Err(Refusal::CounterLimit);
    }
    Ok(at)
}
