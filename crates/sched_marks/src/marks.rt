// The two calls that touch neither records nor lent memory.
ghost use Rattle.std.specs.Prelude.{◌≡◌, true, List, ℕ, ◌<◌, ◌≤◌, max, set};
ghost use Rattle.model.specs.declared.ThreadInfo.{ThreadInfo};
ghost use Rattle.model.specs.Reading.{call_answer_meant};
ghost use Rattle.model.specs.Calls as Calls;
ghost use Rattle.state.specs.Memory.{memory};
ghost use Rattle.state.specs.State.{Valid};
ghost use Rattle.state.specs.Asked.{Askable, nothing};
ghost use Rattle.state.specs.Done.{Done};

use crate::Answered;
use checks::{check_retired, check_timing};
use model::CoreId;
use settings::SchedConfig;
use state::Sched;

// "`retired` sets the core's progressed mark, also on an idle or switching core."
pub fn retired(s: Sched, core: CoreId) -> Answered<()>
    requires { Askable s nothing }
    ensures { (ts : List ThreadInfo) (qs ps ls ws : List ℕ) → Valid s (memory ts qs ps ls ws)
        → Done (Calls.retired core.0) (call_answer_meant result.answer) s result.sched (memory ts qs ps ls ws) (memory ts qs ps ls ws) }
{
    let answer = check_retired(s, core);
    let mut next = s;
    match answer {
        Err(_) => Answered {
            sched: next,
            answer,
        },
        Ok(()) => {
            next.marks.progressed = with_mark(s.marks.progressed, core.0 as usize);
            Answered {
                sched: next,
                answer,
            }
        }
    }
}

// One mark set. Each place is asked, so that none is found by an index: an index into the state would keep all of it in memory, and a byte stored
// by one would have to be waited for.
fn with_mark(marks: [bool; 8], i: usize) -> [bool; 8]
    requires { i < 8 }
    ensures { result ≡ set marks i true }
{
    let mut m = marks;
    for (k, mark) in m.iter_mut().enumerate() {
        *mark |= k == i;
    }
    m
}

// "`set_timing` turns quantum 0 into 1."
pub fn set_timing(s: Sched, quantum: u32, switch_cost: u32) -> Answered<()>
    ensures { (ts : List ThreadInfo) (qs ps ls ws : List ℕ) → Valid s (memory ts qs ps ls ws)
        → Done (Calls.timing quantum switch_cost) (call_answer_meant result.answer) s result.sched (memory ts qs ps ls ws) (memory ts qs ps ls ws) }
{
    let answer = check_timing(s, quantum, switch_cost);
    match answer {
        Err(_) => Answered { sched: s, answer },
        Ok(()) => {
            let mut next = s;
            next.config = SchedConfig {
                quantum: at_least_one(quantum),
                switch_cost,
                ..s.config
            };
            Answered {
                sched: next,
                answer,
            }
        }
    }
}

pub fn at_least_one(n: u32) -> u32
    ensures { result ≡ max n 1 }
{
    if n == 0 { 1 } else { n }
}
