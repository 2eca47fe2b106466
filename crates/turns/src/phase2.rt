// Phase 2 on one core: "Switching with left ≤ 1 becomes running, slice 0 ..; otherwise left − 1."
ghost use Rattle.std.specs.Prelude.{Bool, List, ℕ, ◌<◌, length};
ghost use Rattle.model.specs.Phases.{phase2};
ghost use Rattle.queue.specs.Words.{made, Appended, StillLent};
ghost use Rattle.turns.specs.Turns.{core_of, Turned};

use model::CoreState;
use queue::moves::{Move, Moves};

pub fn phase2_on(s: CoreState, moves: &mut Moves) -> CoreState
    requires { moves.old.count < length moves.old.words.now }
    ensures turn { (i : ℕ) (e b y p : Bool) (q : List ℕ) → Turned (phase2 i (core_of s e b y p) q) (core_of result e b y p) q (made moves.old) (made moves.new) }
    ensures out { Appended 1 moves.old.count moves.new.count moves.old.words.now moves.new.words.now }
    ensures lent { StillLent moves.old.words moves.new.words }
{
    match s {
        CoreState::Idle | CoreState::Running { .. } => s,
        CoreState::Switching { tid, left } => {
            if left <= 1 {
                moves.push(Move::Starts { tid });
                return CoreState::Running { tid, slice: 0 };
            }
            CoreState::Switching {
                tid,
                left: left - 1,
            }
        }
    }
}
