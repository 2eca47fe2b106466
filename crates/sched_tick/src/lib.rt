// The call `end_tick`: what `tick_plan` decides, and the thread records in the lent slice.
#![tactic(auto)]

ghost use Rattle.model.specs.Calls;
ghost use Rattle.state.specs.Memory.{memory};
ghost use Rattle.state.specs.State.{Valid};
ghost use Rattle.switches.specs.Entries.{answer_with};
ghost use Rattle.tick_plan.specs.DoneWith.{DoneWith};

use model::ThreadInfo;
use state::memory::LentWords;
use state::{Sched, unpack};
use threads::{apply_moves, charge_all};
use tick_plan::Ticked;
use tick_plan::tick::{next_tick, tick_decided_on_words, tick_threads};

// "Charge, then now + 1." The records are charged first, and what `tick_decided_on_words` decides is written into them at the new tick. Where the
// state is read after `tick_decided_on_words`, every call of `apply` stores more of it.
pub fn end_tick(
    s: Sched,
    threads: &mut [ThreadInfo],
    queue: &mut [u32],
    prios: &[u32],
    log: &mut [u64],
    lanes: &mut [u64],
) -> Ticked
    requires { Valid s (memory threads.old queue.old prios.now log.old lanes.old) }
    ensures { DoneWith Calls.tick (answer_with result.answer result.switches) result.switches s result.sched
        (memory threads.old queue.old prios.now log.old lanes.old)
        (memory threads.new queue.new prios.now log.new lanes.new) }
{
    charge_all(threads, tick_threads(s), unpack(s.states));
    let mut words = LentWords {
        queue,
        prios,
        log,
        lanes,
    };
    let d = tick_decided_on_words(s, &mut words);
    let lanes = &mut *words.lanes;
    apply_moves(threads, lanes, d.moves, next_tick(s));
    d.ticked()
}
