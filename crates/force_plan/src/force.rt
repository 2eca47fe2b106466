// A forced switch: refused, or decided and written.
ghost use Rattle.std.specs.Prelude.{◌≡◌, List, ℕ, ◌≤◌, length, unwrap_or};
ghost use Rattle.std.proofs.Math.Option.{Option};
ghost use Rattle.model.specs.declared.ThreadInfo.{ThreadInfo};
ghost use Rattle.model.specs.Reading.{option_tid_meant};
ghost use Rattle.state.specs.Memory.{memory, held, held_words, SameLoans, SameWords};
ghost use Rattle.state.specs.State.{Valid};
ghost use Rattle.force_plan.specs.Plan.{AskedAt, ForceFits, ForcedOf, Forceable, ForcePending};

use crate::check_force;
use decide::force::{force_core, place_asked};
use model::{CoreId, Tid};
use queue::moves::Moves;
use queue::ready::ReadyQueue;
use state::memory::{LentMemory, LentWords};
use state::{Sched, pack, unpack};
use switches::no_switches;
use tick_plan::tick::write;
use tick_plan::{Decided, Planned};

// The place in the queue of the thread that is asked for, where it is there.
fn place(s: Sched, named: Option<Tid>, queue: &[u32], prios: &[u32]) -> Option<usize>
    requires { (s.queued ≤ length queue.now) × (s.threads ≤ length prios.now) }
    ensures { AskedAt s (option_tid_meant named) queue.now prios.now (unwrap_or result s.queued) }
{
    let waiting = &queue[..s.queued];
    place_asked(s.config.policy, &prios[..s.threads], waiting, named)
}

// The core takes the thread at a place of the queue; the moves go to the first 80 words of the lanes.
fn plan(s: Sched, core: CoreId, at: usize, queue: &mut [u32], lanes: &mut [u64]) -> Planned
    requires { ForceFits s core.0 at queue.old lanes.old }
    ensures { ForcedOf s core.0 at queue.old queue.new lanes.old lanes.new result }
{
    let mut marks = s.marks;
    let mut ready = ReadyQueue {
        words: queue,
        len: s.queued,
    };
    let (front, _) = lanes.split_at_mut(80);
    let mut moves = Moves {
        words: front,
        count: 0,
    };
    let next = force_core(
        unpack(s.states),
        core,
        at,
        s.config.switch_cost,
        &mut marks,
        &mut ready,
        &mut moves,
    );
    Planned::new(pack(next), marks, ready.len, moves.count)
}

// A forced switch that is not refused.
fn force_taken(s: Sched, core: CoreId, at: usize, w: &mut LentWords) -> Decided
    requires { (named : Option ℕ) × ((ts : List ThreadInfo) × Forceable s core.0 named at (held_words ts w.old)) }
    ensures done { (named : Option ℕ) (ts : List ThreadInfo) → Forceable s core.0 named at (held_words ts w.old)
        → ForcePending core.0 named result.answer result.switches s result.sched result.moves (held_words ts w.old) (held_words ts w.new) }
    ensures lent { SameWords w.old w.new }
{
    let queue = &mut *w.queue;
    let log = &mut *w.log;
    let lanes = &mut *w.lanes;
    let planned = plan(s, core, at, queue, lanes);
    // A forced switch takes no tick.
    let written = write(s, log, lanes, planned.moves, s.now);
    Decided {
        sched: planned.taken(s, written),
        answer: Ok(()),
        switches: written.switches,
        moves: planned.moves,
    }
}

// All of a forced switch but what it does to the thread records.
pub fn force_decided_on_words(
    s: Sched,
    core: CoreId,
    named: Option<Tid>,
    w: &mut LentWords,
) -> Decided
    requires { (ts : List ThreadInfo) × Valid s (held_words ts w.old) }
    ensures done { (ts : List ThreadInfo) → Valid s (held_words ts w.old)
        → ForcePending core.0 (option_tid_meant named) result.answer result.switches s result.sched result.moves
        (held_words ts w.old) (held_words ts w.new) }
    ensures lent { SameWords w.old w.new }
{
    let queue = &mut *w.queue;
    let at = place(s, named, queue, w.prios);
    match check_force(s, core, named, at) {
        Err(refusal) => Decided {
            sched: s,
            answer: Err(refusal),
            switches: no_switches(),
            moves: 0,
        },
        Ok(at) => force_taken(s, core, at, w),
    }
}

// The same on the slices one by one: the parts of a `LentMemory` can be lent to it, and can't be made a `LentWords` where they are.
fn force_decided_on_slices(
    s: Sched,
    core: CoreId,
    named: Option<Tid>,
    queue: &mut [u32],
    prios: &[u32],
    log: &mut [u64],
    lanes: &mut [u64],
) -> Decided
    requires { (ts : List ThreadInfo) × Valid s (memory ts queue.old prios.now log.old lanes.old) }
    ensures { (ts : List ThreadInfo) → Valid s (memory ts queue.old prios.now log.old lanes.old)
        → ForcePending core.0 (option_tid_meant named) result.answer result.switches s result.sched result.moves
        (memory ts queue.old prios.now log.old lanes.old) (memory ts queue.new prios.now log.new lanes.new) }
{
    let mut words = LentWords {
        queue,
        prios,
        log,
        lanes,
    };
    force_decided_on_words(s, core, named, &mut words)
}

// The same for a caller that has the lent memory as one value: the records and the priorities stay as they are.
pub fn force_decided(s: Sched, core: CoreId, named: Option<Tid>, m: &mut LentMemory) -> Decided
    requires { Valid s (held m.old) }
    ensures done { ForcePending core.0 (option_tid_meant named) result.answer result.switches s result.sched result.moves (held m.old) (held m.new) }
    ensures records { m.new.threads.now ≡ m.old.threads.now }
    ensures prios { m.new.prios.now ≡ m.old.prios.now }
    ensures lent { SameLoans m.old m.new }
{
    let queue = &mut *m.queue;
    let prios = &mut *m.prios;
    let log = &mut *m.log;
    let lanes = &mut *m.lanes;
    force_decided_on_slices(s, core, named, queue, prios, log, lanes)
}
