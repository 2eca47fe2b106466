// All six phases.
ghost use Rattle.std.specs.Prelude.{◌≡◌, ℕ, ◌*◌, ◌<◌, ◌≤◌, length, get_or};
ghost use Rattle.std.proofs.Math.Option.{none};
ghost use Rattle.settings.specs.Reading.{policy_meant};
ghost use Rattle.model.specs.Types.{Priority};
ghost use Rattle.model.specs.Reading.{core_state_meant};
ghost use Rattle.model.specs.Phases;
ghost use Rattle.model.specs.Phases.{next_preemption};
ghost use Rattle.model.specs.declared.CoreState.TheVariants;
ghost use Rattle.queue.specs.Words.{made, Appended, NoLonger, StillLent};
ghost use Rattle.queue.specs.Ready.{waiting};
ghost use Rattle.turns.specs.Turns.{rules_meant, Short};
ghost use Rattle.phases.specs.Cores.{firsts, board, pass_of};

use model::CoreState;
use queue::moves::Moves;
use queue::ready::ReadyQueue;
use turns::{Marks, Rules};

// What `end_tick` decides on the first n cores. The moves stand in the front of the lent words.
pub fn decide_board(
    cores: [CoreState; 8],
    n: usize,
    rules: &Rules,
    marks: &mut Marks,
    queue: &mut ReadyQueue,
    moves: &mut Moves,
) -> [CoreState; 8]
    requires n_bound { (n ≤ 8) × (queue.old.len ≤ length queue.old.words.now) × (10 * n ≤ length moves.old.words.now) }
    requires by_index { (j : ℕ) → j < n → Short (core_state_meant (get_or cores j TheVariants.Idle)) }
    ensures decided { pass_of n (board result marks.new) (waiting queue.new) (made moves.new) ≡ Phases.decide (rules_meant rules.now) (firsts (board cores marks.old) n) (waiting queue.old) }
    ensures settled { policy_meant rules.now.policy ≡ Priority → next_preemption (rules_meant rules.now) (pass_of n (board result marks.new) (waiting queue.new) (made moves.new)) ≡ none }
    ensures rest { (j : ℕ) → n ≤ j → board result marks.new j ≡ board cores marks.old j }
    ensures queue { NoLonger queue.old.len queue.new.len queue.old.words.now queue.new.words.now }
    ensures out { Appended (10 * n) 0 moves.new.count moves.old.words.now moves.new.words.now }
    ensures lent { StillLent queue.old.words queue.new.words }
    ensures lent_moves { StillLent moves.old.words moves.new.words }
{
    moves.count = 0;
    let sliced = phases::phase1(cores, n);
    let switched = phases::phase2(sliced, n, moves);
    let left = phases::phase3(switched, n, marks, queue, moves);
    let filled = phases::phase4(left, n, rules, &mut marks.progressed, queue, moves);
    let handed_over = phases::phase5(filled, n, rules, marks, queue, moves);
    preempt::phase6(handed_over, n, rules, &mut marks.progressed, queue, moves)
}
