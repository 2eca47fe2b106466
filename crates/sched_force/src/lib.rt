// The call `force_switch`: what `force_plan` decides, and the thread records in the lent slice.
#![tactic(auto)]

ghost use Rattle.model.specs.Reading.{option_tid_meant};
ghost use Rattle.model.specs.Calls;
ghost use Rattle.state.specs.Memory.{memory};
ghost use Rattle.state.specs.State.{Valid};
ghost use Rattle.switches.specs.Entries.{answer_with};
ghost use Rattle.tick_plan.specs.DoneWith.{DoneWith};

use force_plan::force::force_decided_on_words;
use model::{CoreId, ThreadInfo, Tid};
use state::Sched;
use state::memory::LentWords;
use threads::apply_moves;
use tick_plan::Ticked;

// The named thread, or the next one, takes the core; a thread that runs there goes to the back. No tick passes: the moves are written at `now`.
pub fn force_switch(
    s: Sched,
    core: CoreId,
    named: Option<Tid>,
    threads: &mut [ThreadInfo],
    queue: &mut [u32],
    prios: &[u32],
    log: &mut [u64],
    lanes: &mut [u64],
) -> Ticked
    requires { Valid s (memory threads.old queue.old prios.now log.old lanes.old) }
    ensures { DoneWith (Calls.force core.0 (option_tid_meant named)) (answer_with result.answer result.switches) result.switches s result.sched
        (memory threads.old queue.old prios.now log.old lanes.old)
        (memory threads.new queue.new prios.now log.new lanes.new) }
{
    let mut words = LentWords {
        queue,
        prios,
        log,
        lanes,
    };
    let d = force_decided_on_words(s, core, named, &mut words);
    let lanes = &mut *words.lanes;
    apply_moves(threads, lanes, d.moves, s.now);
    d.ticked()
}
