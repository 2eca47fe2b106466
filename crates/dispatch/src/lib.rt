// A thread leaves a core, takes a core, or both at once.
// Its public functions are parts for other crates: no host calls them.
#![tactic(auto)]

ghost use Rattle.std.specs.Prelude.{◌≡◌, true, false, ◌++◌, ◌∷◌, [], ◌+◌, ◌<◌, ◌≤◌, length, set};
ghost use Rattle.model.specs.Types.{leaves};
ghost use Rattle.model.specs.declared.CoreState.TheVariants;
ghost use Rattle.model.specs.Reading.{core_state_meant, reason_meant};
ghost use Rattle.model.specs.Phases.{dispatched_state, dispatch_moves};
ghost use Rattle.queue.specs.Words.{made, Behind, Appended, NoLonger, StillLent};
ghost use Rattle.queue.specs.Ready.{waiting};
ghost use Rattle.dispatch.specs.Swaps.{goes_back, requeued, Swapped};

use model::{CoreId, CoreState, LeaveReason, Tid};
use queue::moves::{Move, Moves};
use queue::ready::ReadyQueue;

// Whether a thread that leaves for this reason can run again.
pub fn goes_back(reason: LeaveReason) -> bool
    ensures { result ≡ goes_back (reason_meant reason) }
{
    !matches!(&reason, LeaveReason::Exit | LeaveReason::Block)
}

// Takes a thread off its core, which is idle then. A thread that can run again goes to the back of the queue.
pub fn vacate(
    core: CoreId,
    tid: Tid,
    reason: LeaveReason,
    queue: &mut ReadyQueue,
    moves: &mut Moves,
) -> CoreState
    requires { (core.0 < 8) × (queue.old.len + length (requeued (reason_meant reason) tid.0) ≤ length queue.old.words.now) × (moves.old.count < length moves.old.words.now) }
    ensures idle { result ≡ TheVariants.Idle }
    ensures queue { waiting queue.new ≡ waiting queue.old ++ requeued (reason_meant reason) tid.0 }
    ensures len { queue.new.len ≡ queue.old.len + length (requeued (reason_meant reason) tid.0) }
    ensures behind { Behind queue.new.len queue.old.words.now queue.new.words.now }
    ensures moves { made moves.new ≡ made moves.old ++ (leaves tid.0 core.0 (reason_meant reason) ∷ []) }
    ensures out { Appended 1 moves.old.count moves.new.count moves.old.words.now moves.new.words.now }
    ensures lent { StillLent queue.old.words queue.new.words }
    ensures lent_moves { StillLent moves.old.words moves.new.words }
{
    moves.push(Move::Leaves { tid, core, reason });
    if goes_back(reason) {
        queue.push_back(tid);
    }
    CoreState::Idle
}

// Puts a thread that has left the queue on a core, through a context switch when it costs ticks.
pub fn dispatch(
    core: CoreId,
    tid: Tid,
    cost: u32,
    progressed: &mut [bool; 8],
    moves: &mut Moves,
) -> CoreState
    requires { (core.0 < 8) × (moves.old.count + 2 ≤ length moves.old.words.now) }
    ensures state { core_state_meant result ≡ dispatched_state cost tid.0 }
    ensures mark { progressed.new ≡ set progressed.old core.0 false }
    ensures moves { made moves.new ≡ made moves.old ++ dispatch_moves cost tid.0 core.0 }
    ensures out { Appended 2 moves.old.count moves.new.count moves.old.words.now moves.new.words.now }
    ensures lent { StillLent moves.old.words moves.new.words }
{
    progressed[core.0 as usize] = false;
    moves.push(Move::Takes { tid, core });
    if cost == 0 {
        moves.push(Move::Starts { tid });
        return CoreState::Running { tid, slice: 0 };
    }
    CoreState::Switching { tid, left: cost }
}

// The core loses its thread to the back of the queue and takes the one at place k there. The place is taken first, so the queue needs no more room.
pub fn swap(
    core: CoreId,
    tid: Tid,
    reason: LeaveReason,
    k: usize,
    cost: u32,
    progressed: &mut [bool; 8],
    queue: &mut ReadyQueue,
    moves: &mut Moves,
) -> CoreState
    requires { (core.0 < 8) × (goes_back (reason_meant reason) ≡ true) × (k < queue.old.len) × (queue.old.len ≤ length queue.old.words.now) × (moves.old.count + 3 ≤ length moves.old.words.now) }
    ensures swapped { Swapped tid.0 (reason_meant reason) core.0 k cost progressed.old progressed.new (waiting queue.old) (waiting queue.new) (made moves.old) (made moves.new) (core_state_meant result) }
    ensures len { queue.new.len ≡ queue.old.len }
    ensures queue { NoLonger queue.old.len queue.new.len queue.old.words.now queue.new.words.now }
    ensures out { Appended 3 moves.old.count moves.new.count moves.old.words.now moves.new.words.now }
    ensures lent { StillLent queue.old.words queue.new.words }
    ensures lent_moves { StillLent moves.old.words moves.new.words }
{
    let next = queue.take_at(k);
    vacate(core, tid, reason, queue, moves);
    dispatch(core, next, cost, progressed, moves)
}
