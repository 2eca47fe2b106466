// The call `close`.
#![tactic(auto)]

ghost use Rattle.std.specs.Prelude.{List, ℕ};
ghost use Rattle.model.specs.Reading.{call_answer_meant};
ghost use Rattle.model.specs.Calls as Calls;
ghost use Rattle.state.specs.Memory.{memory};
ghost use Rattle.state.specs.State.{Valid};
ghost use Rattle.state.specs.Done.{Done};

use close_plan::{charged_threads, close_core, close_finished};
use model::{CoreId, ThreadInfo};
use sched_exit::exit;
use sched_marks::Answered;
use state::{Sched, unpack};
use threads::charge_all;

// "`close` does `exit` and phase 1, clears the calls' marks and decides nothing more." A refused call exits a core that is not there and charges no
// thread, so that the same steps leave everything as it is.
pub fn close(
    s: Sched,
    core: CoreId,
    threads: &mut [ThreadInfo],
    queue: &mut [u32],
    log: &mut [u64],
    lanes: &mut [u64],
) -> Answered<()>
    requires { (ps : List ℕ) × Valid s (memory threads.old queue.old ps log.old lanes.old) }
    ensures { (ps : List ℕ) → Valid s (memory threads.old queue.old ps log.old lanes.old)
        → Done (Calls.close core.0) (call_answer_meant result.answer) s result.sched
        (memory threads.old queue.old ps log.old lanes.old)
        (memory threads.new queue.new ps log.new lanes.new) }
{
    let on = close_core(s, core);
    let e = exit(s, on, threads, queue, log);
    let n = charged_threads(e);
    // The thread that exits still holds its core.
    charge_all(threads, n, unpack(e.sched.states));
    close_finished(s, core, e, lanes)
}
