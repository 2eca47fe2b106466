// What a line makes of the report, once the scheduler has been made or has done the call.
ghost use Rattle.std.specs.Prelude.{◌≡◌, ◌≤◌};
ghost use Rattle.feed_plan.specs.Steps.{report_capacities, refused_stage, quiet_next, refused_next, headed_next, called_next, created_next, applied_next};

use crate::{Next, Report, Stage};
use new_plan::Created;
use rcfg::Head;
use sched::{Applied, Outcome};
use settings::Refusal;
use state::{Capacities, Sched};
use switches::{SwitchList, no_switches};

// "T 256, E 512, S 256"
pub fn capacities() -> Capacities
    ensures { result ≡ report_capacities }
{
    Capacities {
        threads: 256,
        events: 512,
        segments: 256,
    }
}

fn refused_stage(stage: Stage) -> Stage
    ensures { result ≡ refused_stage stage }
{
    match stage {
        Stage::Heads | Stage::Over => Stage::Over,
        Stage::Calls | Stage::Ended => Stage::Ended,
    }
}

// A line that is not read.
pub fn quiet(r: Report) -> Next
    ensures { result ≡ quiet_next r }
{
    Next {
        report: r,
        line: 0,
        outcome: Ok(Outcome::Taken),
        switches: no_switches(),
    }
}

// The refusal is printed, and no line is counted any more.
pub fn refused(r: Report, k: Refusal) -> Next
    requires { r.lines ≤ 1_000_000_000_000 }
    ensures { result ≡ refused_next r k }
{
    Next {
        report: Report {
            stage: refused_stage(r.stage),
            ..r
        },
        line: r.lines + 1,
        outcome: Err(k),
        switches: no_switches(),
    }
}

// A setting.
pub fn headed(r: Report, head: Head) -> Next
    requires { r.lines ≤ 1_000_000_000_000 }
    ensures { result ≡ headed_next r head }
{
    Next {
        report: Report {
            lines: r.lines + 1,
            stage: Stage::Heads,
            head,
            ..r
        },
        line: 0,
        outcome: Ok(Outcome::Taken),
        switches: no_switches(),
    }
}

fn called(r: Report, sched: Sched, outcome: Result<Outcome, Refusal>, switches: SwitchList) -> Next
    requires { r.lines ≤ 1_000_000_000_000 }
    ensures { result ≡ called_next r sched outcome switches }
{
    let line = r.lines + 1;
    Next {
        report: Report {
            lines: line,
            stage: Stage::Calls,
            sched,
            ..r
        },
        line,
        outcome,
        switches,
    }
}

// `cores=`: the scheduler is made, or refused.
pub fn of_created(r: Report, created: Created) -> Next
    requires { r.lines ≤ 1_000_000_000_000 }
    ensures { result ≡ created_next r created }
{
    match created.answer {
        Err(k) => refused(r, k),
        Ok(()) => called(r, created.sched, Ok(Outcome::Taken), no_switches()),
    }
}

// A call that was applied.
pub fn of_applied(r: Report, applied: Applied) -> Next
    requires { r.lines ≤ 1_000_000_000_000 }
    ensures { result ≡ applied_next r applied }
{
    called(r, applied.sched, applied.outcome, applied.switches)
}
