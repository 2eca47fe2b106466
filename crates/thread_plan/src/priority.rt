// `set_priority`, without the records.
ghost use Rattle.std.specs.Prelude.{◌≡◌, List, ℕ};
ghost use Rattle.model.specs.declared.ThreadInfo.{ThreadInfo};
ghost use Rattle.model.specs.Reading.{call_answer_meant};
ghost use Rattle.model.specs.Calls as Calls;
ghost use Rattle.state.specs.Memory.{memory};
ghost use Rattle.state.specs.State.{Valid};
ghost use Rattle.updates.specs.Pending.{Pending};

use crate::Decided;
use crate::log::log_event;
use checks::check_priority;
use model::{SchedEventKind, Tid};
use records::change::Change;
use state::Sched;

// 01: "Spawn, dispatch, leave, wake and priority change each write one event".
pub fn priority_decided(
    s: Sched,
    tid: Tid,
    priority: u32,
    prios: &mut [u32],
    log: &mut [u64],
) -> Decided<()>
    requires { (ts : List ThreadInfo) × (qs : List ℕ) × (ws : List ℕ) × Valid s (memory ts qs prios.old log.old ws) }
    ensures { (ts : List ThreadInfo) (qs ws : List ℕ) → Valid s (memory ts qs prios.old log.old ws)
        → Pending (Calls.priority tid.0 priority) (call_answer_meant result.answer) s result.sched result.place result.change ts qs qs prios.old prios.new log.old log.new ws ws }
{
    let answer = check_priority(s, tid);
    match answer {
        Err(_) => Decided::unchanged(s, answer),
        Ok(()) => {
            let place = tid.0 as usize;
            prios[place] = priority;
            let kind = SchedEventKind::Priority { priority };
            let mut next = s;
            next.log = log_event(log, s.capacities.events, s.log, s.now, tid, kind);
            Decided {
                sched: next,
                answer,
                place,
                change: Change::Priority(priority),
            }
        }
    }
}
