// The calls that change one thread record: `set_priority`, `spawn`, `join`, `yield_now`. Each has a half that works without the records (thread_plan);
// what is left here lends the records.
// The four are for hosts.
#![tactic(auto)]

ghost use Rattle.std.specs.Prelude.{List, ℕ};
ghost use Rattle.model.specs.Reading.{option_tid_meant, call_answer_meant, spawn_answer_meant, join_answer_meant};
ghost use Rattle.model.specs.Calls as Calls;
ghost use Rattle.state.specs.Memory.{memory};
ghost use Rattle.state.specs.State.{Valid};
ghost use Rattle.state.specs.Done.{Done};

use model::{CoreId, JoinOutcome, ThreadInfo, Tid};
use sched_marks::Answered;
use state::Sched;
use thread_plan::join::join_decided;
use thread_plan::own::{known_place, own_place};
use thread_plan::priority::priority_decided;
use thread_plan::spawn::spawn_decided;
use thread_plan::yields::yield_decided;
use threads::{record_at, update};

// A thread's priority is set, and an event says so.
pub fn set_priority(
    s: Sched,
    tid: Tid,
    number: u32,
    threads: &mut [ThreadInfo],
    prios: &mut [u32],
    log: &mut [u64],
) -> Answered<()>
    requires { (qs : List ℕ) × (ws : List ℕ) × Valid s (memory threads.old qs prios.old log.old ws) }
    ensures { (qs ws : List ℕ) → Valid s (memory threads.old qs prios.old log.old ws)
        → Done (Calls.priority tid.0 number) (call_answer_meant result.answer) s result.sched
        (memory threads.old qs prios.old log.old ws)
        (memory threads.new qs prios.new log.new ws) }
{
    let d = priority_decided(s, tid, number, prios, log);
    update(threads, d.place, d.change);
    d.answered()
}

// "`spawn` copies the parent's priority; with no parent, or an unknown one, it is 10. The child joins the back of the queue."
pub fn spawn(
    s: Sched,
    parent: Option<Tid>,
    entry_pc: u32,
    threads: &mut [ThreadInfo],
    queue: &mut [u32],
    prios: &mut [u32],
    log: &mut [u64],
) -> Answered<Tid>
    requires { (ws : List ℕ) × Valid s (memory threads.old queue.old prios.old log.old ws) }
    ensures { (ws : List ℕ) → Valid s (memory threads.old queue.old prios.old log.old ws)
        → Done (Calls.spawn (option_tid_meant parent) entry_pc) (spawn_answer_meant result.answer) s result.sched
        (memory threads.old queue.old prios.old log.old ws)
        (memory threads.new queue.new prios.new log.new ws) }
{
    let d = spawn_decided(s, parent, entry_pc, queue, prios, log);
    update(threads, d.place, d.change);
    d.answered()
}

// "`join` of oneself or of an unknown thread is invalid, of an exited one done, otherwise wait."
pub fn join(
    s: Sched,
    core: CoreId,
    target: Tid,
    threads: &mut [ThreadInfo],
) -> Answered<JoinOutcome>
    requires { (qs : List ℕ) × (ps : List ℕ) × (ls : List ℕ) × (ws : List ℕ) × Valid s (memory threads.old qs ps ls ws) }
    ensures { (qs ps ls ws : List ℕ) → Valid s (memory threads.old qs ps ls ws)
        → Done (Calls.join core.0 target.0) (join_answer_meant result.answer) s result.sched (memory threads.old qs ps ls ws)
        (memory threads.new qs ps ls ws) }
{
    let t = record_at(threads, known_place(s, target));
    let d = join_decided(s, core, target, t);
    update(threads, d.place, d.change);
    d.answered()
}

// The core's thread yields when the tick ends.
pub fn yield_now(s: Sched, core: CoreId, threads: &mut [ThreadInfo]) -> Answered<()>
    requires { (qs : List ℕ) × (ps : List ℕ) × (ls : List ℕ) × (ws : List ℕ) × Valid s (memory threads.old qs ps ls ws) }
    ensures { (qs ps ls ws : List ℕ) → Valid s (memory threads.old qs ps ls ws)
        → Done (Calls.yield core.0) (call_answer_meant result.answer) s result.sched (memory threads.old qs ps ls ws)
        (memory threads.new qs ps ls ws) }
{
    let t = record_at(threads, own_place(s, core));
    let d = yield_decided(s, core, t);
    update(threads, d.place, d.change);
    d.answered()
}
