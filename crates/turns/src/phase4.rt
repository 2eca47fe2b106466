// Phase 4 on one core: "Idle cores take the next thread."
ghost use Rattle.std.specs.Prelude.{Bool, false, ℕ, ◌+◌, ◌<◌, ◌≤◌, length, get_or};
ghost use Rattle.model.specs.Phases.{phase4};
ghost use Rattle.queue.specs.Words.{made, Appended, NoLonger, StillLent};
ghost use Rattle.queue.specs.Ready.{waiting};
ghost use Rattle.turns.specs.Turns.{core_of, with_quantum, Turned, Besides};

use crate::Rules;
use model::{CoreId, CoreState};
use queue::moves::Moves;
use queue::pick;
use queue::ready::ReadyQueue;

pub fn phase4_on(
    s: CoreState,
    core: CoreId,
    rules: &Rules,
    progressed: &mut [bool; 8],
    queue: &mut ReadyQueue,
    moves: &mut Moves,
) -> CoreState
    requires { (core.0 < 8) × (queue.old.len ≤ length queue.old.words.now) × (moves.old.count + 2 ≤ length moves.old.words.now) }
    ensures turn { (u : ℕ) (e b y : Bool) → Turned (phase4 (with_quantum rules.now u) core.0 (core_of s e b y (get_or progressed.old core.0 false)) (waiting queue.old)) (core_of result e b y (get_or progressed.new core.0 false)) (waiting queue.new) (made moves.old) (made moves.new) }
    ensures besides { Besides core.0 progressed.old progressed.new }
    ensures queue { NoLonger queue.old.len queue.new.len queue.old.words.now queue.new.words.now }
    ensures out { Appended 2 moves.old.count moves.new.count moves.old.words.now moves.new.words.now }
    ensures lent { StillLent queue.old.words queue.new.words }
    ensures lent_moves { StillLent moves.old.words moves.new.words }
{
    match s {
        CoreState::Idle => match pick::pick_next(
            rules.policy,
            rules.prios,
            queue.waiting(),
            4294967295,
        ) {
            None => s,
            Some(k) => {
                let next = queue.take_at(k);
                dispatch::dispatch(core, next, rules.cost, progressed, moves)
            }
        },
        CoreState::Switching { .. } | CoreState::Running { .. } => s,
    }
}
