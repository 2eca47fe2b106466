// What a tick and a call write beside the thread records: the cores' counters, their timelines, and the log.
// Its public functions are parts for other crates: no host calls them.
#![tactic(auto)]

pub mod counters;
pub mod lanes;
pub mod log;
