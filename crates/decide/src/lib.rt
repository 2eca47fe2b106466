// The decisions of a tick end and of a forced switch: what becomes of the core states, the marks and the queue, and the moves.
// Its public functions are parts for other crates: no host calls them.
#![tactic(auto)]

pub mod force;
pub mod tick;
