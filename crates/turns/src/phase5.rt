// Phase 5 on one core: "A running core that yielded, or whose slice ≥ quantum with its progressed mark set under rr or priority, hands over."
ghost use Rattle.std.specs.Prelude.{◌≡◌, Bool, true, false, cond, ◌&&◌, ◌||◌, ℕ, ◌+◌, ◌<◌, ◌≤◌, leb, length, get_or};
ghost use Rattle.settings.specs.Reading.{policy_meant};
ghost use Rattle.model.specs.Types.{Yield, Quantum, Running};
ghost use Rattle.model.specs.Reading.{core_state_meant, reason_meant};
ghost use Rattle.model.specs.Phases.{is_preemptive, hand_over, pick_next, ceiling_for, phase5};
ghost use Rattle.queue.specs.Words.{made, Appended, NoLonger, StillLent};
ghost use Rattle.queue.specs.Ready.{prio_of, waiting};
ghost use Rattle.turns.specs.Turns.{core_of, rules_meant, with_quantum, Turned, Besides, has_turn};

use crate::{Marks, Rules};
use model::{CoreId, CoreState, LeaveReason, Tid};
use queue::moves::Moves;
use queue::pick;
use queue::ready::ReadyQueue;

// Whether a running core is to hand over.
pub fn wants_hand_over(yields: bool, rules: &Rules, slice: u32, progressed: bool) -> bool
    ensures { result ≡ (yields || (is_preemptive (policy_meant rules.now.policy) && (leb rules.now.quantum slice && progressed))) }
{
    yields || (rules.policy.is_preemptive() && rules.quantum <= slice && progressed)
}

// Yield outranks quantum as reason.
pub fn hand_over_reason(yields: bool) -> LeaveReason
    ensures { reason_meant result ≡ cond yields Yield Quantum }
{
    if yields {
        LeaveReason::Yield
    } else {
        LeaveReason::Quantum
    }
}

// A core that runs tid and is to hand over does so if somebody is eligible; otherwise tid keeps it with a fresh slice, and the mark stays.
pub fn hand_over(
    core: CoreId,
    tid: Tid,
    yielded: bool,
    rules: &Rules,
    progressed: &mut [bool; 8],
    queue: &mut ReadyQueue,
    moves: &mut Moves,
) -> CoreState
    requires { (core.0 < 8) × (queue.old.len ≤ length queue.old.words.now) × (moves.old.count + 3 ≤ length moves.old.words.now) }
    ensures turn { (u sl : ℕ) (s : CoreState) (e b y : Bool) → Turned (hand_over (with_quantum rules.now u) core.0 (core_of s e b y (get_or progressed.old core.0 false)) (Running tid.0 sl) true (pick_next (with_quantum rules.now u) core.0 (ceiling_for (policy_meant rules.now.policy) (prio_of rules.now.prios.now tid.0)) (waiting queue.old)) (cond yielded Yield Quantum) (waiting queue.old)) (core_of result e b y (get_or progressed.new core.0 false)) (waiting queue.new) (made moves.old) (made moves.new) }
    ensures besides { Besides core.0 progressed.old progressed.new }
    ensures queue { NoLonger queue.old.len queue.new.len queue.old.words.now queue.new.words.now }
    ensures out { Appended 3 moves.old.count moves.new.count moves.old.words.now moves.new.words.now }
    ensures lent { StillLent queue.old.words queue.new.words }
    ensures lent_moves { StillLent moves.old.words moves.new.words }
{
    let ceiling = pick::priority_of(rules.prios, tid);
    match pick::pick_next(rules.policy, rules.prios, queue.waiting(), ceiling) {
        None => CoreState::Running { tid, slice: 0 },
        Some(k) => dispatch::swap(
            core,
            tid,
            hand_over_reason(yielded),
            k,
            rules.cost,
            progressed,
            queue,
            moves,
        ),
    }
}

pub fn phase5_on(
    s: CoreState,
    core: CoreId,
    rules: &Rules,
    marks: &mut Marks,
    queue: &mut ReadyQueue,
    moves: &mut Moves,
) -> CoreState
    requires { (core.0 < 8) × (queue.old.len ≤ length queue.old.words.now) × (moves.old.count + 3 ≤ length moves.old.words.now) }
    ensures turn { (e b : Bool) → Turned (phase5 (rules_meant rules.now) core.0 (core_of s e b (get_or marks.old.yields core.0 false) (get_or marks.old.progressed core.0 false)) (waiting queue.old)) (core_of result e b (get_or marks.new.yields core.0 false) (get_or marks.new.progressed core.0 false)) (waiting queue.new) (made moves.old) (made moves.new) }
    ensures besides { (Besides core.0 marks.old.yields marks.new.yields) × (Besides core.0 marks.old.progressed marks.new.progressed) }
    ensures others { (marks.new.exits ≡ marks.old.exits) × (marks.new.blocks ≡ marks.old.blocks) }
    ensures queue { NoLonger queue.old.len queue.new.len queue.old.words.now queue.new.words.now }
    ensures out { Appended 3 moves.old.count moves.new.count moves.old.words.now moves.new.words.now }
    ensures lent { StillLent queue.old.words queue.new.words }
    ensures lent_moves { StillLent moves.old.words moves.new.words }
{
    let i = core.0 as usize;
    let yielded = marks.yields[i];
    let progressed = marks.progressed[i];
    marks.yields[i] = false;
    match s {
        CoreState::Idle | CoreState::Switching { .. } => s,
        CoreState::Running { tid, slice } => {
            if !wants_hand_over(yielded, rules, slice, progressed) {
                return s;
            }
            hand_over(
                core,
                tid,
                yielded,
                rules,
                &mut marks.progressed,
                queue,
                moves,
            )
        }
    }
}

// Whether phase 5 changes anything of a core.
pub fn has_turn(s: CoreState, yields: bool, rules: &Rules, progressed: bool) -> bool
    ensures { result ≡ has_turn (core_state_meant s) yields (policy_meant rules.now.policy) rules.now.quantum progressed }
{
    match s {
        CoreState::Idle | CoreState::Switching { .. } => yields,
        CoreState::Running { slice, .. } => wants_hand_over(yields, rules, slice, progressed),
    }
}
