// `spawn`, without the records.
ghost use Rattle.std.specs.Prelude.{◌≡◌, List, ℕ, ◌≤◌, length, take};
ghost use Rattle.model.specs.declared.ThreadInfo.{ThreadInfo};
ghost use Rattle.model.specs.Reading.{option_tid_meant, spawn_answer_meant};
ghost use Rattle.model.specs.Calls as Calls;
ghost use Rattle.state.specs.Memory.{memory};
ghost use Rattle.state.specs.State.{Valid};
ghost use Rattle.updates.specs.Pending.{Pending};
ghost use Rattle.thread_plan.specs.Reads.{child_priority};

use crate::Decided;
use crate::log::log_event;
use checks::check_spawn;
use model::{SchedEventKind, Tid};
use records::change::Change;
use state::Sched;

// 01: "`spawn` copies the parent's priority; with no parent, or an unknown one, it is 10."
fn child_priority(parent: Option<Tid>, threads: usize, prios: &[u32]) -> u32
    requires { threads ≤ length prios.now }
    ensures { result ≡ child_priority (option_tid_meant parent) (take threads prios.now) }
{
    match parent {
        None => 10,
        Some(tid) => prios[..threads].get(tid.0 as usize).copied().unwrap_or(10),
    }
}

// "The child joins the back of the queue."
pub fn spawn_decided(
    s: Sched,
    parent: Option<Tid>,
    entry_pc: u32,
    queue: &mut [u32],
    prios: &mut [u32],
    log: &mut [u64],
) -> Decided<Tid>
    requires { (ts : List ThreadInfo) × (ws : List ℕ) × Valid s (memory ts queue.old prios.old log.old ws) }
    ensures { (ts : List ThreadInfo) (ws : List ℕ) → Valid s (memory ts queue.old prios.old log.old ws)
        → Pending (Calls.spawn (option_tid_meant parent) entry_pc) (spawn_answer_meant result.answer) s result.sched result.place result.change ts queue.old queue.new prios.old prios.new log.old log.new ws ws }
{
    if let Err(refusal) = check_spawn(s) {
        return Decided::unchanged(s, Err(refusal));
    }
    let place = s.threads;
    let tid = Tid(place as u32);
    let priority = child_priority(parent, place, prios);
    queue[s.queued] = tid.0;
    prios[place] = priority;
    let kind = SchedEventKind::Spawn { parent };
    let mut next = s;
    next.threads = place + 1;
    next.queued = s.queued + 1;
    next.log = log_event(log, s.capacities.events, s.log, s.now, tid, kind);
    Decided {
        sched: next,
        answer: Ok(tid),
        place,
        change: Change::Born {
            tid,
            parent,
            entry_pc,
            priority,
            now: s.now,
        },
    }
}
