// A trace's records, written as lines: one thread's record, the log and the timelines.
// The `pub` functions are parts of the program `trace`. No contract can say what is written to standard output; those here keep the positions within the
// buffers.
#![tactic(auto)]

pub mod history;
pub mod thread;
