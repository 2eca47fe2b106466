// One thread's record by value: every way in which it changes.
// Its public functions are parts for other crates: no host calls them.
#![tactic(auto)]

pub mod change;
