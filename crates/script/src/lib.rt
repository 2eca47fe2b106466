// The definition of scripts and of the report (specs/), what is proved of it alone (proofs/), and the words that a report and a screen have in common.
#![tactic(auto)]

pub mod labels;
