// The halves of `set_priority`, `spawn`, `join` and `yield_now` that work without the thread records. Each decides the call, writes what is not a
// record, and says which record is to be changed and how. A refused call changes none: place 0, `Change::Keep`.
// Its public functions are parts for other crates: no host calls them.
#![tactic(auto)]

pub mod join;
pub mod log;
pub mod own;
pub mod priority;
pub mod spawn;
pub mod yields;

ghost use Rattle.std.specs.Prelude.{◌≡◌};
ghost use Rattle.records.specs.declared.change.Change.TheVariants as Changes;

use records::change::Change;
use sched_marks::Answered;
use settings::Refusal;
use state::Sched;

// What a call leaves and answers, and the change of a record that completes it.
#[derive(Clone, Copy)]
pub struct Decided<A> {
    pub sched: Sched,
    pub answer: Result<A, Refusal>,
    pub place: usize,
    pub change: Change,
}

impl<A: Copy> Decided<A> {
    // A call that changes no record.
    pub fn unchanged(sched: Sched, answer: Result<A, Refusal>) -> Decided<A>
        ensures { result ≡ record { sched = sched; answer = answer; place = 0; change = Changes.Keep } }
    {
        Decided {
            sched,
            answer,
            place: 0,
            change: Change::Keep,
        }
    }

    // What is left of it once the record is changed.
    pub fn answered(self) -> Answered<A>
        ensures { result ≡ record { sched = self.sched; answer = self.answer } }
    {
        Answered {
            sched: self.sched,
            answer: self.answer,
        }
    }
}
