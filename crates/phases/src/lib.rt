// Phases 1 to 5 of a tick end: each core's turn, cores ascending. A core that a phase leaves alone is not stored. A loop ends by `break`: with a
// return in each of its eight turns the program `report` took 31.0 million instructions for 40,000 lines of the smallest load, not 22.0.
// Its public functions are parts for other crates: no host calls them.
#![tactic(auto)]

ghost use Rattle.std.specs.Prelude.{◌≡◌, Bool, List, ℕ, ◌+◌, ◌*◌, ◌<◌, ◌≤◌, length, get_or};
ghost use Rattle.model.specs.Types.{Move};
ghost use Rattle.model.specs.Phases;
ghost use Rattle.model.specs.Reading.{core_state_meant};
ghost use Rattle.model.specs.declared.CoreState.TheVariants;
ghost use Rattle.queue.specs.Words.{made, Appended, NoLonger, StillLent};
ghost use Rattle.queue.specs.Ready.{waiting};
ghost use Rattle.turns.specs.Turns.{rules_meant, with_quantum, Short};
ghost use Rattle.phases.specs.Cores.{core_at, Ran};

use model::{CoreId, CoreState};
use queue::moves::Moves;
use queue::ready::ReadyQueue;
use turns::{Marks, Rules, phase1, phase2, phase3, phase4, phase5};

// Phase 1 on the core states.
pub fn phase1(cores: [CoreState; 8], n: usize) -> [CoreState; 8]
    requires n_bound { n ≤ 8 }
    requires by_index { (j : ℕ) → j < n → Short (core_state_meant (get_or cores j TheVariants.Idle)) }
    ensures { (ex bl yi pr : List Bool) (q : List ℕ) (m : List Move) → Ran Phases.phase1 n (core_at cores ex bl yi pr) q m (core_at result ex bl yi pr) q m }
{
    let mut cs = cores;
    for i in 0..8 {
        if n <= i {
            break;
        }
        cs[i] = phase1::phase1_on(cs[i]);
    }
    cs
}

// Phase 2: a core that finished switching runs its thread.
pub fn phase2(cores: [CoreState; 8], n: usize, moves: &mut Moves) -> [CoreState; 8]
    requires { (n ≤ 8) × (moves.old.count + n ≤ length moves.old.words.now) }
    ensures ran { (ex bl yi pr : List Bool) (q : List ℕ) → Ran Phases.phase2 n (core_at cores ex bl yi pr) q (made moves.old) (core_at result ex bl yi pr) q (made moves.new) }
    ensures out { Appended n moves.old.count moves.new.count moves.old.words.now moves.new.words.now }
    ensures lent { StillLent moves.old.words moves.new.words }
{
    let mut cs = cores;
    for i in 0..8 {
        if n <= i {
            break;
        }
        if !cs[i].is_switching() {
            continue;
        }
        cs[i] = phase2::phase2_on(cs[i], moves);
    }
    cs
}

// Phase 3: threads that exited or blocked leave.
pub fn phase3(
    cores: [CoreState; 8],
    n: usize,
    marks: &mut Marks,
    queue: &mut ReadyQueue,
    moves: &mut Moves,
) -> [CoreState; 8]
    requires { (n ≤ 8) × (queue.old.len ≤ length queue.old.words.now) × (moves.old.count + n ≤ length moves.old.words.now) }
    ensures ran { (pr : List Bool) → Ran Phases.phase3 n (core_at cores marks.old.exits marks.old.blocks marks.old.yields pr) (waiting queue.old) (made moves.old) (core_at result marks.new.exits marks.new.blocks marks.new.yields pr) (waiting queue.new) (made moves.new) }
    ensures progressed { marks.new.progressed ≡ marks.old.progressed }
    ensures queue { NoLonger queue.old.len queue.new.len queue.old.words.now queue.new.words.now }
    ensures out { Appended n moves.old.count moves.new.count moves.old.words.now moves.new.words.now }
    ensures lent { StillLent queue.old.words queue.new.words }
    ensures lent_moves { StillLent moves.old.words moves.new.words }
{
    let mut cs = cores;
    for i in 0..8 {
        if n <= i {
            break;
        }
        if !phase3::is_marked(marks.exits[i], marks.blocks[i], marks.yields[i]) {
            continue;
        }
        cs[i] = phase3::phase3_on(cs[i], CoreId(i as u32), marks, queue, moves);
    }
    cs
}

// Phase 4: idle cores take the next thread.
pub fn phase4(
    cores: [CoreState; 8],
    n: usize,
    rules: &Rules,
    progressed: &mut [bool; 8],
    queue: &mut ReadyQueue,
    moves: &mut Moves,
) -> [CoreState; 8]
    requires { (n ≤ 8) × (queue.old.len ≤ length queue.old.words.now) × (moves.old.count + 2 * n ≤ length moves.old.words.now) }
    ensures ran { (u : ℕ) (ex bl yi : List Bool) → Ran (Phases.phase4 (with_quantum rules.now u)) n (core_at cores ex bl yi progressed.old) (waiting queue.old) (made moves.old) (core_at result ex bl yi progressed.new) (waiting queue.new) (made moves.new) }
    ensures queue { NoLonger queue.old.len queue.new.len queue.old.words.now queue.new.words.now }
    ensures out { Appended (2 * n) moves.old.count moves.new.count moves.old.words.now moves.new.words.now }
    ensures lent { StillLent queue.old.words queue.new.words }
    ensures lent_moves { StillLent moves.old.words moves.new.words }
{
    let mut cs = cores;
    for i in 0..8 {
        if n <= i {
            break;
        }
        if !cs[i].is_idle() {
            continue;
        }
        cs[i] = phase4::phase4_on(cs[i], CoreId(i as u32), rules, progressed, queue, moves);
    }
    cs
}

// Phase 5: a running core that yielded, or whose quantum is over, hands over.
pub fn phase5(
    cores: [CoreState; 8],
    n: usize,
    rules: &Rules,
    marks: &mut Marks,
    queue: &mut ReadyQueue,
    moves: &mut Moves,
) -> [CoreState; 8]
    requires { (n ≤ 8) × (queue.old.len ≤ length queue.old.words.now) × (moves.old.count + 3 * n ≤ length moves.old.words.now) }
    ensures ran { (ex bl : List Bool) → Ran (Phases.phase5 (rules_meant rules.now)) n (core_at cores ex bl marks.old.yields marks.old.progressed) (waiting queue.old) (made moves.old) (core_at result ex bl marks.new.yields marks.new.progressed) (waiting queue.new) (made moves.new) }
    ensures others { (marks.new.exits ≡ marks.old.exits) × (marks.new.blocks ≡ marks.old.blocks) }
    ensures queue { NoLonger queue.old.len queue.new.len queue.old.words.now queue.new.words.now }
    ensures out { Appended (3 * n) moves.old.count moves.new.count moves.old.words.now moves.new.words.now }
    ensures lent { StillLent queue.old.words queue.new.words }
    ensures lent_moves { StillLent moves.old.words moves.new.words }
{
    let mut cs = cores;
    for i in 0..8 {
        if n <= i {
            break;
        }
        if !phase5::has_turn(cs[i], marks.yields[i], rules, marks.progressed[i]) {
            continue;
        }
        cs[i] = phase5::phase5_on(cs[i], CoreId(i as u32), rules, marks, queue, moves);
    }
    cs
}
