// A trace's state without records, written as lines: settings, queue, cores, and the questions about them.
// The `pub` functions are parts of the program `trace`. No contract can say what is written to standard output: those that print keep the positions within
// the buffers, and the one that puts the questions' line into a buffer says its text.
#![tactic(auto)]

pub mod cores;
