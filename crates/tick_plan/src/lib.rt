// What `end_tick` does beside the thread records: it charges counters and timelines, decides, and writes the log. The records are charged and
// moved by the crate above, which holds the lent slice.
// Its public functions are parts for other crates: no host calls them.
#![tactic(auto)]

mod one;
pub mod tick;

ghost use Rattle.std.specs.Prelude.{◌≡◌, ◌+◌, ◌<◌, ◌^◌, length};
ghost use Rattle.tick_plan.specs.Plan.{planned_sched};

use model::CoreTicks;
use rings::RingPos;
use settings::Refusal;
use state::{Eight, Sched};
use switches::SwitchList;
use turns::Marks;

// What charging a tick leaves: the cores' counters, and where their timelines stand.
#[derive(Clone, Copy)]
pub struct Charged {
    pub ticks: [CoreTicks; 8],
    pub lanes: [RingPos; 8],
}

// What the phases decide: the cores with their marks, the queue's length, and how many moves stand in the front of the lanes.
#[derive(Clone, Copy)]
pub struct Planned {
    pub states: Eight,
    pub marks: Marks,
    pub queued: usize,
    pub moves: usize,
}

// What the moves come to: where the log stands, how many of them are dispatches, and the switch list.
#[derive(Clone, Copy)]
pub struct Written {
    pub log: RingPos,
    pub takes: u64,
    pub switches: SwitchList,
}

// A call that is done once its moves are applied to the records.
#[derive(Clone, Copy)]
pub struct Decided {
    pub sched: Sched,
    pub answer: Result<(), Refusal>,
    pub switches: SwitchList,
    pub moves: usize,
}

// What the call leaves and answers. Refused, the switch list has no entry.
#[derive(Clone, Copy)]
pub struct Ticked {
    pub sched: Sched,
    pub answer: Result<(), Refusal>,
    pub switches: SwitchList,
}

impl Planned {
    // Eight marks of each kind: a call that is lent `Marks` does not say so of what it leaves.
    pub fn new(states: Eight, marks: Marks, queued: usize, moves: usize) -> Planned
        ensures parts { (result.states ≡ states) × (result.marks ≡ marks) × (result.queued ≡ queued) × (result.moves ≡ moves) }
        ensures eight { (length result.marks.exits ≡ 8) × (length result.marks.blocks ≡ 8) × (length result.marks.yields ≡ 8) × (length result.marks.progressed ≡ 8) }
    {
        Planned {
            states,
            marks,
            queued,
            moves,
        }
    }

    // The state with what was decided, and with what its moves came to.
    pub fn taken(self, s: Sched, w: Written) -> Sched
        requires { s.context_switches + w.takes < 2 ^ 64 }
        ensures { result ≡ planned_sched s self w }
    {
        let Planned {
            states,
            marks,
            queued,
            ..
        } = self;
        Sched {
            queued,
            context_switches: s.context_switches + w.takes,
            states,
            marks,
            log: w.log,
            ..s
        }
    }
}

impl Decided {
    // What is left of it once its moves are applied.
    pub fn ticked(self) -> Ticked
        ensures { (result.sched ≡ self.sched) × (result.answer ≡ self.answer) × (result.switches ≡ self.switches) }
    {
        Ticked {
            sched: self.sched,
            answer: self.answer,
            switches: self.switches,
        }
    }
}
