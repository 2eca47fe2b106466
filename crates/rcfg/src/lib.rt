// The settings' text: read line by line, and written into a lent buffer.
// `from_rcfg` and `to_rcfg` are for hosts; the others are parts.
#![tactic(auto)]

use settings::{Refusal, SchedConfig};

pub mod reading;
pub mod writing;

// The keys before the calls of a script; only the first three are settings.
#[derive(Clone, Copy, PartialEq, Eq, Debug)]
pub enum HeadKey {
    Policy,
    Quantum,
    SwitchCost,
    Cores,
}

// What the lines so far have set, and how many of the three keys may no longer come.
#[derive(Clone, Copy, PartialEq, Eq, Debug)]
pub struct Head {
    pub config: SchedConfig,
    pub past: u32,
}

// The first bad line of a text of settings, and why it is refused.
#[derive(Clone, Copy, PartialEq, Eq, Debug)]
pub struct RefusedLine {
    pub line: u64,
    pub refusal: Refusal,
}
