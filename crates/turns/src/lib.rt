// One core's turn in each phase of a tick end.
// Its public functions are parts for other crates: no host calls them.
#![tactic(auto)]

pub mod phase1;
pub mod phase2;
pub mod phase3;
pub mod phase4;
pub mod phase5;

use settings::SchedPolicy;

// What the settings say of a tick end, and the threads' priority numbers.
#[derive(Clone, Copy)]
pub struct Rules<'a> {
    pub policy: SchedPolicy,
    pub quantum: u32,
    pub cost: u32,
    pub prios: &'a [u32],
}

// What has happened on each core: its thread exited, blocked or yielded, or worked a whole tick.
#[derive(Clone, Copy)]
pub struct Marks {
    pub exits: [bool; 8],
    pub blocks: [bool; 8],
    pub yields: [bool; 8],
    pub progressed: [bool; 8],
}
