// The report before the first line.
ghost use Rattle.feed_plan.specs.Feeding.{Starts};

use crate::steps::capacities;
use crate::{Report, Stage};
use model::{CoreState, CoreTicks, Tick};
use rcfg::Head;
use rings::RingPos;
use settings::SchedConfig;
use state::{Sched, others_idle, words_of};
use turns::Marks;

// A state that no call has seen: up to `cores=` it stands for nothing.
fn no_sched() -> Sched {
    let none = CoreTicks {
        busy: 0,
        switching: 0,
        idle: 0,
    };
    let empty = RingPos { last: 0, len: 0 };
    Sched {
        config: SchedConfig::default(),
        capacities: capacities(),
        cores: 1,
        threads: 0,
        queued: 0,
        now: Tick(0),
        context_switches: 0,
        closed: false,
        states: others_idle(words_of(CoreState::Idle)),
        marks: Marks {
            exits: [false; 8],
            blocks: [false; 8],
            yields: [false; 8],
            progressed: [false; 8],
        },
        ticks: [none; 8],
        log: empty,
        lanes: [empty; 8],
    }
}

// Before the first line: no setting yet, no line read.
pub fn start() -> Report
    ensures { Starts result }
{
    Report {
        lines: 0,
        stage: Stage::Heads,
        head: Head::new(),
        sched: no_sched(),
    }
}
