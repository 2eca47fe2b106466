// What is read of one thread's record by value, and the sums over records.
// Its public functions are parts for other crates: no host calls them.
#![tactic(auto)]

pub mod read;
pub mod totals;
