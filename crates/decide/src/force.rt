// A forced switch.
ghost use Rattle.std.specs.Prelude.{◌≡◌, false, ◌++◌, ℕ, ◌+◌, ◌<◌, ◌≤◌, length, get_or, set};
ghost use Rattle.std.proofs.Math.Option.{Option};
ghost use Rattle.settings.specs.Reading.{policy_meant};
ghost use Rattle.model.specs.Phases.{update, without, dispatched_state, dispatch_moves};
ghost use Rattle.model.specs.Calls.{is_switching, out_of, back_of, forced_core};
ghost use Rattle.model.specs.Reading.{core_state_meant, option_tid_meant};
ghost use Rattle.model.specs.declared.CoreState.TheVariants;
ghost use Rattle.queue.specs.Words.{made, Appended, NoLonger, StillLent};
ghost use Rattle.queue.specs.Ready.{waiting, Picked, Chosen, prio_of, remove_at};
ghost use Rattle.phases.specs.Cores.{firsts, board};
ghost use Rattle.decide.specs.Forced.{asked};

use model::{CoreId, CoreState, LeaveReason, Tid};
use queue::moves::Moves;
use queue::ready::ReadyQueue;
use queue::{pick, ready};
use settings::SchedPolicy;
use turns::Marks;

// The place of the thread that takes a forced core: the one that is named, or the next.
pub fn place_asked(
    policy: SchedPolicy,
    prios: &[u32],
    waiting: &[u32],
    named: Option<Tid>,
) -> Option<usize>
    ensures { Chosen (asked (policy_meant policy) (prio_of prios.now) (option_tid_meant named) waiting.now) waiting.now result }
{
    match named {
        None => pick::pick_next(policy, prios, waiting, 4294967295),
        Some(tid) => ready::position(waiting, tid),
    }
}

// A core that is not switching takes the thread at a place of the queue; a thread that runs there goes to the back.
pub fn take_over(
    s: CoreState,
    core: CoreId,
    at: usize,
    cost: u32,
    progressed: &mut [bool; 8],
    queue: &mut ReadyQueue,
    moves: &mut Moves,
) -> CoreState
    requires { (core.0 < 8) × (is_switching (core_state_meant s) ≡ false) × (at < queue.old.len) × (queue.old.len ≤ length queue.old.words.now) × (moves.old.count + 3 ≤ length moves.old.words.now) }
    ensures state { core_state_meant result ≡ dispatched_state cost (get_or (waiting queue.old) at 0) }
    ensures mark { progressed.new ≡ set progressed.old core.0 false }
    ensures left { waiting queue.new ≡ remove_at at (waiting queue.old) ++ back_of (core_state_meant s) }
    ensures moves { made moves.new ≡ made moves.old ++ (out_of core.0 (core_state_meant s) ++ dispatch_moves cost (get_or (waiting queue.old) at 0) core.0) }
    ensures queue { NoLonger queue.old.len queue.new.len queue.old.words.now queue.new.words.now }
    ensures out { Appended 3 moves.old.count moves.new.count moves.old.words.now moves.new.words.now }
    ensures lent { StillLent queue.old.words queue.new.words }
    ensures lent_moves { StillLent moves.old.words moves.new.words }
{
    match s {
        CoreState::Idle => {
            let next = queue.take_at(at);
            dispatch::dispatch(core, next, cost, progressed, moves)
        }
        CoreState::Switching { .. } => s,
        CoreState::Running { tid, .. } => dispatch::swap(
            core,
            tid,
            LeaveReason::Forced,
            at,
            cost,
            progressed,
            queue,
            moves,
        ),
    }
}

// What `force_switch` decides: the core's marks go, and it takes the thread at a place of the queue. The moves stand in the front of the lent words.
pub fn force_core(
    cores: [CoreState; 8],
    core: CoreId,
    at: usize,
    cost: u32,
    marks: &mut Marks,
    queue: &mut ReadyQueue,
    moves: &mut Moves,
) -> [CoreState; 8]
    requires { (core.0 < 8) × (is_switching (core_state_meant (get_or cores core.0 TheVariants.Idle)) ≡ false) × (at < queue.old.len) × (queue.old.len ≤ length queue.old.words.now) × (3 ≤ length moves.old.words.now) }
    ensures cores { (n : ℕ) → core.0 < n → firsts (board result marks.new) n ≡ update core.0 (forced_core cost (get_or (waiting queue.old) at 0)) (firsts (board cores marks.old) n) }
    ensures others { (j : ℕ) → (j ≡ core.0 → ⊥) → board result marks.new j ≡ board cores marks.old j }
    ensures left { (who : Option ℕ) → Picked who (waiting queue.old) at → waiting queue.new ≡ without (get_or (waiting queue.old) at 0) (waiting queue.old ++ back_of (core_state_meant (get_or cores core.0 TheVariants.Idle))) }
    ensures moves { made moves.new ≡ out_of core.0 (core_state_meant (get_or cores core.0 TheVariants.Idle)) ++ dispatch_moves cost (get_or (waiting queue.old) at 0) core.0 }
    ensures queue { NoLonger queue.old.len queue.new.len queue.old.words.now queue.new.words.now }
    ensures out { Appended 3 0 moves.new.count moves.old.words.now moves.new.words.now }
    ensures lent { StillLent queue.old.words queue.new.words }
    ensures lent_moves { StillLent moves.old.words moves.new.words }
{
    moves.count = 0;
    let i = core.0 as usize;
    marks.exits[i] = false;
    marks.blocks[i] = false;
    marks.yields[i] = false;
    let mut cs = cores;
    cs[i] = take_over(
        cores[i],
        core,
        at,
        cost,
        &mut marks.progressed,
        queue,
        moves,
    );
    cs
}
