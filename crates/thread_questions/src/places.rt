// Parts: which records are in use, and the record of a thread as an answer.
ghost use Rattle.std.specs.Prelude.{◌≡◌, ltb};
ghost use Rattle.std.proofs.Math.Option.{none, some};
ghost use Rattle.model.specs.Reading.{thread_meant};
ghost use Rattle.thread_questions.specs.Reading.{option_thread_meant};

use model::{ThreadInfo, Tid};
use state::Sched;

// How many records are in use, from the first on.
pub fn in_use(s: Sched) -> usize
    ensures { result ≡ s.threads }
{
    s.threads
}

// There is such a thread.
pub fn has_thread(s: Sched, tid: Tid) -> bool
    ensures { result ≡ ltb tid.0 s.threads }
{
    (tid.0 as usize) < s.threads
}

// Where a thread's record stands.
pub fn record_index(tid: Tid) -> usize
    ensures { result ≡ tid.0 }
{
    tid.0 as usize
}

pub fn found(t: ThreadInfo) -> Option<ThreadInfo>
    ensures { option_thread_meant result ≡ some (thread_meant t) }
{
    Some(t)
}

pub fn missing() -> Option<ThreadInfo>
    ensures { option_thread_meant result ≡ none }
{
    None
}
