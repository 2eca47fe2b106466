// The thread on a core, and the places of records that `join` and `yield_now` read.
ghost use Rattle.std.specs.Prelude.{◌≡◌};
ghost use Rattle.thread_plan.specs.Reads.{known_place, own_tid};

use model::{CoreId, Tid};
use state::{Sched, state_at};

// The thread on a core; 0 where there is none.
pub fn own_tid(s: Sched, core: CoreId) -> Tid
    ensures { result.0 ≡ own_tid s core.0 }
{
    let state = state_at(s.states, core.0 as usize);
    state.tid().unwrap_or(Tid(0))
}

// The thread's place among the records; 0, where a record always stands, for a thread that is not known.
pub fn known_place(s: Sched, tid: Tid) -> usize
    ensures { result ≡ known_place s tid.0 }
{
    let i = tid.0 as usize;
    if s.threads <= i {
        return 0;
    }
    i
}

pub fn own_place(s: Sched, core: CoreId) -> usize
    ensures { result ≡ known_place s (own_tid s core.0) }
{
    known_place(s, own_tid(s, core))
}
