// The decisions of a tick end on a board of one core. A crate of its own, so that an edit on `decide` is checked in less than half a minute.
// Its public functions are parts for other crates: no host calls them.
#![tactic(auto)]

ghost use Rattle.std.specs.Prelude.{◌≡◌, List, ◌∷◌, ℕ, ◌≤◌, length};
ghost use Rattle.settings.specs.Reading.{policy_meant};
ghost use Rattle.model.specs.Types.{Priority};
ghost use Rattle.model.specs.Reading.{core_state_meant};
ghost use Rattle.model.specs.Phases;
ghost use Rattle.queue.specs.Words.{made, Appended, NoLonger, StillLent};
ghost use Rattle.queue.specs.Ready.{waiting};
ghost use Rattle.turns.specs.Turns.{rules_meant, Short};
ghost use Rattle.phases.specs.Cores.{firsts, board, pass_of};

use model::{CoreId, CoreState};
use queue::moves::Moves;
use queue::ready::ReadyQueue;
use turns::{Marks, Rules, phase1, phase2, phase3, phase4, phase5};

// What `end_tick` decides on a board of one core, under any policy but priority: no array of states is made.
pub fn decide_core(
    s: CoreState,
    rules: &Rules,
    marks: &mut Marks,
    queue: &mut ReadyQueue,
    moves: &mut Moves,
) -> CoreState
    requires fact { (policy_meant rules.now.policy ≡ Priority → ⊥) × (queue.old.len ≤ length queue.old.words.now) × (10 ≤ length moves.old.words.now) }
    requires short { Short (core_state_meant s) }
    ensures decided { (cs : List CoreState) → pass_of 1 (board (result ∷ cs) marks.new) (waiting queue.new) (made moves.new) ≡ Phases.decide (rules_meant rules.now) (firsts (board (s ∷ cs) marks.old) 1) (waiting queue.old) }
    ensures rest { (cs : List CoreState) (j : ℕ) → 1 ≤ j → board (result ∷ cs) marks.new j ≡ board (s ∷ cs) marks.old j }
    ensures queue { NoLonger queue.old.len queue.new.len queue.old.words.now queue.new.words.now }
    ensures out { Appended 10 0 moves.new.count moves.old.words.now moves.new.words.now }
    ensures lent { StillLent queue.old.words queue.new.words }
    ensures lent_moves { StillLent moves.old.words moves.new.words }
{
    moves.count = 0;
    let core = CoreId(0);
    let sliced = phase1::phase1_on(s);
    let switched = phase2::phase2_on(sliced, moves);
    let left = phase3::phase3_on(switched, core, marks, queue, moves);
    let filled = phase4::phase4_on(left, core, rules, &mut marks.progressed, queue, moves);
    phase5::phase5_on(filled, core, rules, marks, queue, moves)
}
