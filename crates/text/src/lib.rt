// Text as the settings and the scripts have it: lines, numbers, and texts put into lent buffers.
// Its public functions are parts for other crates: no host calls them.
#![tactic(auto)]

pub mod lines;
pub mod numbers;
pub mod put;
pub mod scan;

// The descriptors of standard input and output.
pub const STDIN_FILENO: i32 = 0;

pub const STDOUT_FILENO: i32 = 1;
