// The scheduler's state between calls: one struct by value, beside the memory that the host lends. specs/State.antt says which state of the
// definition it stands for, together with that memory.
// Its public functions are parts for other crates: no host calls them.
#![tactic(auto)]

pub mod memory;

ghost use Rattle.std.specs.Prelude.{◌≡◌, get_or};
ghost use Rattle.model.specs.declared.CoreState.TheVariants;
ghost use Rattle.state.specs.State.{words_of, packed, state_in, states_of, others_idle};

use model::{CoreState, CoreTicks, Tick, Tid};
use rings::RingPos;
use settings::SchedConfig;
use turns::Marks;

// A core state in three words: idle, switching or running by `kind`, the thread, and its `left` or `slice`. The state is copied in each call, and with a field
// of core states the smallest load took longer (docs/DECISIONS.md, "Speed").
#[derive(Clone, Copy)]
pub struct CoreWords {
    pub kind: u32,
    pub tid: u32,
    pub count: u32,
}

// The core states between calls. In the phases they are an array of eight.
#[derive(Clone, Copy)]
pub struct Eight {
    pub c0: CoreWords,
    pub c1: CoreWords,
    pub c2: CoreWords,
    pub c3: CoreWords,
    pub c4: CoreWords,
    pub c5: CoreWords,
    pub c6: CoreWords,
    pub c7: CoreWords,
}

// T, E and S, as `new` was given them.
#[derive(Clone, Copy)]
pub struct Capacities {
    pub threads: usize,
    pub events: usize,
    pub segments: usize,
}

#[derive(Clone, Copy)]
pub struct Sched {
    pub config: SchedConfig,
    pub capacities: Capacities,
    pub cores: usize,
    pub threads: usize,
    pub queued: usize,
    pub now: Tick,
    pub context_switches: u64,
    pub states: Eight,
    pub marks: Marks,
    // Here a word of its own: beside a core's words the two were copied as one, bit by bit (docs/DECISIONS.md, "Speed").
    pub closed: bool,
    pub ticks: [CoreTicks; 8],
    pub log: RingPos,
    pub lanes: [RingPos; 8],
}

pub fn words_of(s: CoreState) -> CoreWords
    ensures { result ≡ words_of s }
{
    match s {
        CoreState::Idle => CoreWords {
            kind: 0,
            tid: 0,
            count: 0,
        },
        CoreState::Switching { tid, left } => CoreWords {
            kind: 1,
            tid: tid.0,
            count: left,
        },
        CoreState::Running { tid, slice } => CoreWords {
            kind: 2,
            tid: tid.0,
            count: slice,
        },
    }
}

pub fn state_in(w: CoreWords) -> CoreState
    ensures { result ≡ state_in w }
{
    let kind = w.kind;
    let tid = Tid(w.tid);
    if kind == 0 {
        return CoreState::Idle;
    }
    if kind == 1 {
        return CoreState::Switching { tid, left: w.count };
    }
    CoreState::Running {
        tid,
        slice: w.count,
    }
}

pub fn unpack(e: Eight) -> [CoreState; 8]
    ensures { result ≡ states_of e }
{
    let c0 = state_in(e.c0);
    let c1 = state_in(e.c1);
    let c2 = state_in(e.c2);
    let c3 = state_in(e.c3);
    let c4 = state_in(e.c4);
    let c5 = state_in(e.c5);
    let c6 = state_in(e.c6);
    let c7 = state_in(e.c7);
    [c0, c1, c2, c3, c4, c5, c6, c7]
}

pub fn pack(a: [CoreState; 8]) -> Eight
    ensures words { result ≡ packed a }
    ensures states { states_of result ≡ a }
{
    let c0 = words_of(a[0]);
    let c1 = words_of(a[1]);
    let c2 = words_of(a[2]);
    let c3 = words_of(a[3]);
    let c4 = words_of(a[4]);
    let c5 = words_of(a[5]);
    let c6 = words_of(a[6]);
    let c7 = words_of(a[7]);
    Eight {
        c0: c0,
        c1: c1,
        c2: c2,
        c3: c3,
        c4: c4,
        c5: c5,
        c6: c6,
        c7: c7,
    }
}

// The first core as given, the others idle.
pub fn others_idle(first: CoreWords) -> Eight
    ensures { result ≡ others_idle first }
{
    let idle = CoreWords {
        kind: 0,
        tid: 0,
        count: 0,
    };
    Eight {
        c0: first,
        c1: idle,
        c2: idle,
        c3: idle,
        c4: idle,
        c5: idle,
        c6: idle,
        c7: idle,
    }
}

// The state of core i; idle where there is none.
pub fn state_at(e: Eight, i: usize) -> CoreState
    ensures { result ≡ get_or (states_of e) i TheVariants.Idle }
{
    if 8 <= i {
        return CoreState::Idle;
    }
    let a = unpack(e);
    a[i]
}
