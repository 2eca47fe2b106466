// The read-only questions, which refuse nothing. Each is what the definition says of the state that the struct and the lent memory stand for.
// All of them are for hosts. Those that read the lent thread records stand in `thread_questions`.
#![tactic(auto)]

pub mod cores;
pub mod labels;
pub mod lists;
pub mod times;

ghost use Rattle.std.specs.Prelude.{◌≡◌};
ghost use Rattle.settings.specs.Reading.{settings_meant};
ghost use Rattle.model.specs.Questions.{next_tid};
ghost use Rattle.state.specs.Asked.{Askable, Answers, nothing};
ghost use Rattle.questions.specs.Questions.{settings_of};

use model::{CoreTicks, SchedEvent, Segment, Tick, Tid};
use settings::SchedConfig;
use state::Sched;

pub fn config(s: Sched) -> SchedConfig
    ensures { Answers s nothing (λ d. settings_meant result ≡ settings_of d) }
{
    s.config
}

// Ticks elapsed.
pub fn now(s: Sched) -> Tick
    ensures { Answers s nothing (λ d. result.0 ≡ d.now) }
{
    s.now
}

pub fn context_switches(s: Sched) -> u64
    ensures { Answers s nothing (λ d. result ≡ d.accounts.context_switches) }
{
    s.context_switches
}

// The number that `spawn` hands out next.
pub fn next_tid(s: Sched) -> Tid
    requires { Askable s nothing }
    ensures { Answers s nothing (λ d. result.0 ≡ next_tid d) }
{
    Tid(s.threads as u32)
}
