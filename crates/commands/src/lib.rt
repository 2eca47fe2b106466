// The call lines of a script read by the program.
// Its public functions are parts for other crates: no host calls them.
#![tactic(auto)]

use model::{CoreId, Tid};

pub mod calls;

// A call as a script writes it. A thread that is spawned has entry 0.
#[derive(Clone, Copy, PartialEq, Eq, Debug)]
pub enum Command {
    Spawn(Option<Tid>),
    Exit(CoreId),
    Join(CoreId, Tid),
    Retired(CoreId),
    Yield(CoreId),
    Prio(Tid, u32),
    Force(CoreId, Option<Tid>),
    Tick,
    Close(CoreId),
}

// The keys of the calls.
#[derive(Clone, Copy, PartialEq, Eq, Debug)]
pub enum CallKey {
    Spawn,
    Exit,
    Join,
    Retired,
    Yield,
    Prio,
    Force,
    Tick,
    Close,
}
