// One line of a script fed to the report program, without the lent thread records: what the line says, what it makes of the report, and what is
// put into the lent buffer.
// Its public functions are parts for other crates: no host calls them.
#![tactic(auto)]

use rcfg::Head;
use sched::{Call, Outcome};
use settings::{Refusal, SchedConfig};
use state::Sched;
use switches::SwitchList;

pub mod reading;
pub mod saying;
pub mod start;
pub mod steps;

// Settings up to `cores=`, then calls. A bad call line ends the calls; a refusal before them ends the run.
#[derive(Clone, Copy)]
pub enum Stage {
    Heads,
    Calls,
    Ended,
    Over,
}

// The report program between two lines. `head` counts up to `cores=`, `sched` after it; `lines` are those read before the end.
#[derive(Clone, Copy)]
pub struct Report {
    pub lines: u64,
    pub stage: Stage,
    pub head: Head,
    pub sched: Sched,
}

// What a line is read by: the report without its scheduler, which is long.
#[derive(Clone, Copy)]
pub struct Reader {
    pub lines: u64,
    pub stage: Stage,
    pub head: Head,
}

// The report after a line, with the number of bytes that the line printed.
#[derive(Clone, Copy)]
pub struct Fed {
    pub report: Report,
    pub written: usize,
}

// What a line says in its stage, where it is not refused. Nothing is read after the end.
#[derive(Clone, Copy)]
pub enum Line {
    Nothing,
    Head(Head),
    Start { config: SchedConfig, cores: u32 },
    Call(Call),
}

// The report after a line, with what the line's number and answer are to print.
#[derive(Clone, Copy)]
pub struct Next {
    pub report: Report,
    pub line: u64,
    pub outcome: Result<Outcome, Refusal>,
    pub switches: SwitchList,
}
