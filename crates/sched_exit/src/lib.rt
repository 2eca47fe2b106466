// The call `exit`.
#![tactic(auto)]

ghost use Rattle.std.specs.Prelude.{List, ℕ};
ghost use Rattle.model.specs.Reading.{call_answer_meant};
ghost use Rattle.model.specs.Calls as Calls;
ghost use Rattle.state.specs.Memory.{memory};
ghost use Rattle.state.specs.State.{Valid};
ghost use Rattle.state.specs.Done.{Done};
ghost use Rattle.sched_exit.specs.Asked.{ExitAsked};

use exit_plan::{exit_change, exit_finished, exit_place, exit_threads, exit_tid};
use model::{CoreId, ThreadInfo};
use sched_marks::Answered;
use state::Sched;
use threads::{update, wake_waiters};

// "`exit` sets finish to now + 1 and wakes its waiters in thread order to the back of the queue." A refused call has no record to change and no
// waiters, so that the same steps leave everything as it is.
pub fn exit(
    s: Sched,
    core: CoreId,
    threads: &mut [ThreadInfo],
    queue: &mut [u32],
    log: &mut [u64],
) -> Answered<()>
    requires { ExitAsked s threads.old queue.old log.old }
    ensures { (ps ws : List ℕ) → Valid s (memory threads.old queue.old ps log.old ws)
        → Done (Calls.exit core.0) (call_answer_meant result.answer) s result.sched
        (memory threads.old queue.old ps log.old ws)
        (memory threads.new queue.new ps log.new ws) }
{
    let i = exit_place(s, core);
    let change = exit_change(s, core);
    update(threads, i, change);
    let n = exit_threads(s, core);
    let on = exit_tid(s, core);
    let len = wake_waiters(threads, n, on, queue, s.queued);
    exit_finished(s, core, len, queue, log)
}
