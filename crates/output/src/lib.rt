// The report's text, put into lent buffers: each function puts the text that the definition has for its arguments where the writer stands, and
// changes nothing before and behind it.
// Its public functions are parts for other crates: no host calls them.
#![tactic(auto)]

pub mod lines;
pub mod sums;
mod values;
