// What each call answered, as one kind of answer.
ghost use Rattle.std.specs.Prelude.{◌≡◌};
ghost use Rattle.std.specs.Result.{MatchResult, IsOkAnd};
ghost use Rattle.switches.specs.Entries.{no_switches};
ghost use Rattle.sched.specs.Answers.{of_ticked, taken};

use crate::{Applied, Outcome};
use sched_marks::Answered;
use switches::no_switches;
use tick_plan::Ticked;

// `how` makes of what a taken call says the way in which it was taken.
pub fn of_answered<A: Copy, F: FnOnce(A) -> Outcome>(a: Answered<A>, how: F) -> Applied
    requires { F.IsAlwaysCallable how }
    ensures state { result.sched ≡ a.sched }
    ensures outcome { MatchResult a.answer (λ x. IsOkAnd result.outcome (F.post how x)) (λ r. result.outcome ≡ Err r) }
    ensures switches { result.switches ≡ no_switches }
{
    Applied {
        sched: a.sched,
        outcome: a.answer.map(how),
        switches: no_switches(),
    }
}

// A call that says no more than that it was taken.
pub fn of_taken(a: Answered<()>) -> Applied
    ensures state { result.sched ≡ a.sched }
    ensures outcome { result.outcome ≡ taken a.answer }
    ensures switches { result.switches ≡ no_switches }
{
    Applied {
        sched: a.sched,
        outcome: a.answer.map(|()| Outcome::Taken),
        switches: no_switches(),
    }
}

pub fn of_ticked(a: Ticked) -> Applied
    ensures { result ≡ of_ticked a }
{
    Applied {
        sched: a.sched,
        outcome: a.answer.map(|()| Outcome::Switched),
        switches: a.switches,
    }
}
