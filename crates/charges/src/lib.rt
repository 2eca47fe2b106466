// What a tick charges one thread's record, in place.
// Its public functions are parts for other crates: no host calls them.
#![tactic(auto)]

pub mod charge;
