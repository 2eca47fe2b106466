// The ready queue, the choice of the next thread, and moves as words: what every decision is made of.
// Its public functions are parts for other crates: no host calls them.
#![tactic(auto)]

pub mod moves;
pub mod pick;
pub mod ready;
