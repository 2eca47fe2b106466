// A trace's texts put into lent buffers. The `pub` functions are parts of the program `trace`.
// That a buffer goes to standard output no contract can say; those here say which texts go through it.
#![tactic(auto)]

pub mod out;
