// Phase 6: "Under priority, while the best waiting number is strictly below the largest running number, that thread loses its core; among equals
// the highest core."
// Its public functions are parts for other crates: no host calls them.
#![tactic(auto)]

ghost use Rattle.std.specs.Prelude.{◌≡◌, Bool, List, ℕ, ◌+◌, ◌*◌, ◌<◌, ◌≤◌, length, IfSome};
ghost use Rattle.std.proofs.Math.Option.{none};
ghost use Rattle.settings.specs.Reading.{policy_meant};
ghost use Rattle.model.specs.Types.{Priority};
ghost use Rattle.model.specs.Phases;
ghost use Rattle.model.specs.Phases.{most_urgent, least_urgent, preemption_of, preempt_rounds, next_preemption};
ghost use Rattle.queue.specs.Words.{made, Appended, NoLonger, StillLent};
ghost use Rattle.queue.specs.Ready.{prio_of, waiting};
ghost use Rattle.turns.specs.Turns.{rules_of, with_quantum};
ghost use Rattle.phases.specs.Cores.{firsts, core_at, pass_of};
ghost use Rattle.preempt.specs.Preemptions.{victim_meant, preemption_meant, Placed};

use model::{CoreId, CoreState, LeaveReason, Tid};
use queue::moves::Moves;
use queue::pick;
use queue::ready::ReadyQueue;
use settings::SchedPolicy;
use turns::Rules;

// A thread that may lose its core.
#[derive(Clone, Copy)]
pub struct Victim {
    pub core: CoreId,
    pub tid: Tid,
}

// The thread that loses its core, and the place in the queue of the one that takes it.
#[derive(Clone, Copy)]
pub struct Preemption {
    pub victim: Victim,
    pub at: usize,
}

// The running thread with the largest number, on the highest core among equals.
pub fn least_urgent(cores: [CoreState; 8], n: usize, prios: &[u32]) -> Option<Victim>
    requires { n ≤ 8 }
    ensures victim { (ex bl yi pr : List Bool) → least_urgent (prio_of prios.now) 0 (firsts (core_at cores ex bl yi pr) n) ≡ victim_meant result }
    ensures within { IfSome result (λ v. v.core.0 < n) }
{
    let mut least = None;
    let mut high: u32 = 0;
    for i in 0..n {
        if let CoreState::Running { tid, .. } = cores[i] {
            let p = pick::priority_of(prios, tid);
            if high <= p {
                let core = CoreId(i as u32);
                least = Some(Victim { core, tid });
                high = p;
            }
        }
    }
    least
}

// The most urgent thread that waits preempts the least urgent one that runs, if its number is strictly below.
pub fn next_preemption(
    cores: [CoreState; 8],
    n: usize,
    prios: &[u32],
    waiting: &[u32],
) -> Option<Preemption>
    requires { n ≤ 8 }
    ensures next { (ex bl yi pr : List Bool) → preemption_of (prio_of prios.now) (most_urgent (prio_of prios.now) waiting.now) (least_urgent (prio_of prios.now) 0 (firsts (core_at cores ex bl yi pr) n)) ≡ preemption_meant result waiting.now }
    ensures placed { Placed result n waiting.now }
{
    let at = pick::most_urgent(prios, waiting, 4294967295)?;
    let victim = least_urgent(cores, n, prios)?;
    let next = Tid(waiting[at]);
    if pick::priority_of(prios, victim.tid) <= pick::priority_of(prios, next) {
        return None;
    }
    Some(Preemption { victim, at })
}

// At most n rounds, after which there is no next preemption.
pub fn preempt_rounds(
    cores: [CoreState; 8],
    n: usize,
    rules: &Rules,
    progressed: &mut [bool; 8],
    queue: &mut ReadyQueue,
    moves: &mut Moves,
) -> [CoreState; 8]
    requires { (n ≤ 8) × (queue.old.len ≤ length queue.old.words.now) × (moves.old.count + 3 * n ≤ length moves.old.words.now) }
    ensures pass { (policy : SchedPolicy) (u : ℕ) (ex bl yi : List Bool) → pass_of n (core_at result ex bl yi progressed.new) (waiting queue.new) (made moves.new) ≡ preempt_rounds (rules_of policy u rules.now.cost rules.now.prios.now) n (pass_of n (core_at cores ex bl yi progressed.old) (waiting queue.old) (made moves.old)) }
    ensures rest { (ex bl yi : List Bool) (j : ℕ) → n ≤ j → core_at result ex bl yi progressed.new j ≡ core_at cores ex bl yi progressed.old j }
    ensures queue { NoLonger queue.old.len queue.new.len queue.old.words.now queue.new.words.now }
    ensures out { Appended (3 * n) moves.old.count moves.new.count moves.old.words.now moves.new.words.now }
    ensures lent { StillLent queue.old.words queue.new.words }
    ensures lent_moves { StillLent moves.old.words moves.new.words }
{
    let mut cs = cores;
    for _round in 0..n {
        match next_preemption(cs, n, rules.prios, queue.waiting()) {
            None => return cs,
            Some(next) => {
                cs[next.victim.core.0 as usize] = dispatch::swap(
                    next.victim.core,
                    next.victim.tid,
                    LeaveReason::Preempt,
                    next.at,
                    rules.cost,
                    progressed,
                    queue,
                    moves,
                );
            }
        }
    }
    cs
}

// Phase 6.
pub fn phase6(
    cores: [CoreState; 8],
    n: usize,
    rules: &Rules,
    progressed: &mut [bool; 8],
    queue: &mut ReadyQueue,
    moves: &mut Moves,
) -> [CoreState; 8]
    requires { (n ≤ 8) × (queue.old.len ≤ length queue.old.words.now) × (moves.old.count + 3 * n ≤ length moves.old.words.now) }
    ensures pass { (u : ℕ) (ex bl yi : List Bool) → pass_of n (core_at result ex bl yi progressed.new) (waiting queue.new) (made moves.new) ≡ Phases.phase6 (policy_meant rules.now.policy) (with_quantum rules.now u) (pass_of n (core_at cores ex bl yi progressed.old) (waiting queue.old) (made moves.old)) }
    ensures settled { (u : ℕ) (ex bl yi : List Bool) → policy_meant rules.now.policy ≡ Priority → next_preemption (with_quantum rules.now u) (pass_of n (core_at result ex bl yi progressed.new) (waiting queue.new) (made moves.new)) ≡ none }
    ensures rest { (ex bl yi : List Bool) (j : ℕ) → n ≤ j → core_at result ex bl yi progressed.new j ≡ core_at cores ex bl yi progressed.old j }
    ensures queue { NoLonger queue.old.len queue.new.len queue.old.words.now queue.new.words.now }
    ensures out { Appended (3 * n) moves.old.count moves.new.count moves.old.words.now moves.new.words.now }
    ensures lent { StillLent queue.old.words queue.new.words }
    ensures lent_moves { StillLent moves.old.words moves.new.words }
{
    match rules.policy {
        SchedPolicy::Off | SchedPolicy::Fifo | SchedPolicy::RoundRobin => cores,
        SchedPolicy::Priority => preempt_rounds(cores, n, rules, progressed, queue, moves),
    }
}
