// A move, applied to the record of the thread that it is about, by value.
// Its public functions are parts for other crates: no host calls them.
#![tactic(auto)]

pub mod moves;
