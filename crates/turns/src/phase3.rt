// Phase 3 on one core: "Threads that exited or blocked this tick leave ..; their core's yield mark goes with them."
ghost use Rattle.std.specs.Prelude.{◌≡◌, Bool, false, ◌||◌, ◌<◌, ◌≤◌, length, get_or};
ghost use Rattle.std.proofs.Math.Option.{some};
ghost use Rattle.model.specs.Phases.{vacate, leaves_for, phase3};
ghost use Rattle.queue.specs.Words.{made, Appended, NoLonger, StillLent};
ghost use Rattle.queue.specs.Ready.{waiting};
ghost use Rattle.turns.specs.Turns.{core_of, Turned, Besides};

use crate::Marks;
use model::{CoreId, CoreState, LeaveReason, Tid};
use queue::moves::Moves;
use queue::ready::ReadyQueue;

// The thread that holds the core leaves it if it exited or blocked.
pub fn vacate_marked(
    s: CoreState,
    core: CoreId,
    tid: Tid,
    exits: bool,
    blocks: bool,
    yields: &mut [bool; 8],
    queue: &mut ReadyQueue,
    moves: &mut Moves,
) -> CoreState
    requires { (core.0 < 8) × (queue.old.len ≤ length queue.old.words.now) × (moves.old.count < length moves.old.words.now) }
    ensures turn { (p : Bool) → Turned (vacate core.0 (core_of s exits blocks (get_or yields.old core.0 false) p) (some tid.0) (leaves_for exits blocks) (waiting queue.old)) (core_of result false false (get_or yields.new core.0 false) p) (waiting queue.new) (made moves.old) (made moves.new) }
    ensures besides { Besides core.0 yields.old yields.new }
    ensures queue { NoLonger queue.old.len queue.new.len queue.old.words.now queue.new.words.now }
    ensures out { Appended 1 moves.old.count moves.new.count moves.old.words.now moves.new.words.now }
    ensures lent { StillLent queue.old.words queue.new.words }
    ensures lent_moves { StillLent moves.old.words moves.new.words }
{
    let i = core.0 as usize;
    if exits {
        yields[i] = false;
        return dispatch::vacate(core, tid, LeaveReason::Exit, queue, moves);
    }
    if blocks {
        yields[i] = false;
        return dispatch::vacate(core, tid, LeaveReason::Block, queue, moves);
    }
    s
}

pub fn phase3_on(
    s: CoreState,
    core: CoreId,
    marks: &mut Marks,
    queue: &mut ReadyQueue,
    moves: &mut Moves,
) -> CoreState
    requires { (core.0 < 8) × (queue.old.len ≤ length queue.old.words.now) × (moves.old.count < length moves.old.words.now) }
    ensures turn { (p : Bool) → Turned (phase3 core.0 (core_of s (get_or marks.old.exits core.0 false) (get_or marks.old.blocks core.0 false) (get_or marks.old.yields core.0 false) p) (waiting queue.old)) (core_of result (get_or marks.new.exits core.0 false) (get_or marks.new.blocks core.0 false) (get_or marks.new.yields core.0 false) p) (waiting queue.new) (made moves.old) (made moves.new) }
    ensures besides { (Besides core.0 marks.old.exits marks.new.exits) × (Besides core.0 marks.old.blocks marks.new.blocks) × (Besides core.0 marks.old.yields marks.new.yields) }
    ensures progressed { marks.new.progressed ≡ marks.old.progressed }
    ensures queue { NoLonger queue.old.len queue.new.len queue.old.words.now queue.new.words.now }
    ensures out { Appended 1 moves.old.count moves.new.count moves.old.words.now moves.new.words.now }
    ensures lent { StillLent queue.old.words queue.new.words }
    ensures lent_moves { StillLent moves.old.words moves.new.words }
{
    let i = core.0 as usize;
    let exits = marks.exits[i];
    let blocks = marks.blocks[i];
    marks.exits[i] = false;
    marks.blocks[i] = false;
    match s.tid() {
        None => {
            marks.yields[i] = false;
            s
        }
        Some(tid) => vacate_marked(s, core, tid, exits, blocks, &mut marks.yields, queue, moves),
    }
}

// Whether phase 3 changes anything of a core.
pub fn is_marked(exits: bool, blocks: bool, yields: bool) -> bool
    ensures { result ≡ (exits || (blocks || yields)) }
{
    exits || blocks || yields
}
