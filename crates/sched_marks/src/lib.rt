// The calls that touch neither thread records nor lent memory: `retired` and `set_timing`.
// Both are for hosts; `at_least_one` is a part.
#![tactic(auto)]

pub mod marks;

use settings::Refusal;
use state::Sched;

// The state that a call leaves, with its answer: a refusal, or what a taken call says.
#[derive(Clone, Copy)]
pub struct Answered<A> {
    pub sched: Sched,
    pub answer: Result<A, Refusal>,
}
