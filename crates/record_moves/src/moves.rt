// What one move, a word of the list that a tick end or a forced switch makes, does to the record of its thread.
ghost use Rattle.std.specs.Prelude.{◌≡◌};
ghost use Rattle.model.specs.Reading.{thread_meant};
ghost use Rattle.record_moves.specs.Moves.{decode, move_tid, moved_thread, MoveRoom};

use model::{ThreadInfo, Tick};
use queue::moves::{Move, move_of};
use records::change;

// The place of the record that a move is about.
#[tactic(auto, unfolding(crate::specs::Moves::move_tid))]
pub fn move_tid(word: u64) -> usize
    ensures { result ≡ move_tid (decode word) }
{
    match move_of(word) {
        Move::Leaves { tid, .. } | Move::Takes { tid, .. } | Move::Starts { tid } => tid.0 as usize,
    }
}

// The record of a move's thread after the move.
#[tactic(auto, unfolding(crate::specs::Moves::moved_thread))]
pub fn applied(t: ThreadInfo, word: u64, now: Tick) -> ThreadInfo
    requires { MoveRoom 1 (thread_meant t) }
    ensures { thread_meant result ≡ moved_thread now.0 (decode word) (thread_meant t) }
{
    match move_of(word) {
        Move::Leaves { core, reason, .. } => change::departed(t, now, core, reason),
        Move::Takes { core, .. } => change::dispatched(t, now, core),
        Move::Starts { .. } => change::ran_first(t, now),
    }
}
