// The types that the program shares with its definition. The definition itself (specs/) is written over plain numbers and
// lists; specs/Reading.antt says which part of it each value below stands for.
#![tactic(auto)]

pub mod cores;
pub mod reasons;

// "A thread number, a core number and a tick each count something else, and one may not be given for another."
#[derive(Clone, Copy, PartialEq, Eq, Debug)]
pub struct Tid(pub u32);

#[derive(Clone, Copy, PartialEq, Eq, Debug)]
pub struct CoreId(pub u32);

#[derive(Clone, Copy, PartialEq, Eq, Debug)]
pub struct Tick(pub u64);

// "A core is idle, switching (thread, ticks left) or running (thread, slice)."
#[derive(Clone, Copy, PartialEq, Eq, Debug)]
pub enum CoreState {
    Idle,
    Switching { tid: Tid, left: u32 },
    Running { tid: Tid, slice: u32 },
}

// One core's three counters. None passes `now`, which fits 32 bits; the state is copied in each call, so they take no more.
#[derive(Clone, Copy, PartialEq, Eq, Debug)]
pub struct CoreTicks {
    pub busy: u32,
    pub switching: u32,
    pub idle: u32,
}

// What filled a stretch of a core's timeline.
#[derive(Clone, Copy, PartialEq, Eq, Debug)]
pub enum Lane {
    Idle,
    Switch(Tid),
    Run(Tid),
}

// A stretch of one core's timeline, ticks start..end.
#[derive(Clone, Copy, PartialEq, Eq, Debug)]
pub struct Segment {
    pub lane: Lane,
    pub start: Tick,
    pub end: Tick,
}

// Why a thread left its core.
#[derive(Clone, Copy, PartialEq, Eq, Debug)]
pub enum LeaveReason {
    Exit,
    Block,
    Yield,
    Quantum,
    Preempt,
    Forced,
}

// Where a thread is in its life.
#[derive(Clone, Copy, PartialEq, Eq, Debug)]
pub enum ThreadState {
    Ready,
    Running(CoreId),
    Blocked(Tid),
    Exited,
}

// When a thread last left a core, which core, and why: a record where the Rust has a tuple.
#[derive(Clone, Copy, PartialEq, Eq, Debug)]
pub struct LastLeave {
    pub tick: Tick,
    pub core: CoreId,
    pub reason: LeaveReason,
}

// What a thread did with its time.
#[derive(Clone, Copy, PartialEq, Eq, Debug)]
pub struct ThreadStats {
    pub arrival: Tick,
    pub first_run: Option<Tick>,
    pub finish: Option<Tick>,
    pub run_ticks: u64,
    pub ready_ticks: u64,
    pub blocked_ticks: u64,
    pub dispatches: u64,
    pub preemptions: u64,
    pub yields: u64,
}

// One thread as the scheduler sees it.
#[derive(Clone, Copy, PartialEq, Eq, Debug)]
pub struct ThreadInfo {
    pub tid: Tid,
    pub parent: Option<Tid>,
    pub entry_pc: u32,
    pub priority: u32,
    pub state: ThreadState,
    pub last_core: Option<CoreId>,
    pub last_dispatch: Option<Tick>,
    pub last_leave: Option<LastLeave>,
    pub stats: ThreadStats,
}

#[derive(Clone, Copy, PartialEq, Eq, Debug)]
pub enum SchedEventKind {
    Spawn { parent: Option<Tid> },
    Dispatch { core: CoreId },
    Leave { core: CoreId, reason: LeaveReason },
    Wake,
    Priority { priority: u32 },
}

#[derive(Clone, Copy, PartialEq, Eq, Debug)]
pub struct SchedEvent {
    pub tick: Tick,
    pub tid: Tid,
    pub kind: SchedEventKind,
}

// The thread that leaves in a switch entry: a record where the Rust has a tuple.
#[derive(Clone, Copy, PartialEq, Eq, Debug)]
pub struct SwitchOut {
    pub tid: Tid,
    pub reason: LeaveReason,
}

// "One entry per core touched ..: thread out with reason, thread in."
#[derive(Clone, Copy, PartialEq, Eq, Debug)]
pub struct Switch {
    pub core: CoreId,
    pub out: Option<SwitchOut>,
    pub inn: Option<Tid>,
}

// How a `join` turned out.
#[derive(Clone, Copy, PartialEq, Eq, Debug)]
pub enum JoinOutcome {
    Wait,
    Done,
    Invalid,
}
