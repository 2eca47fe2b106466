// What the calls read of one thread's record.
ghost use Rattle.std.specs.Prelude.{◌≡◌, ◌+◌, ◌<◌, ◌≤◌, length};
ghost use Rattle.std.proofs.Math.Option.{some};
ghost use Rattle.model.specs.Reading.{thread_meant, join_meant};
ghost use Rattle.model.specs.Calls.{blocked_on, outcome};
ghost use Rattle.records.specs.Waking.{waiter_at, Pushed};

use model::{JoinOutcome, ThreadInfo, ThreadState, Tid};

pub fn priority_of(t: ThreadInfo) -> u32
    ensures { result ≡ (thread_meant t).priority }
{
    t.priority
}

pub fn yields_of(t: ThreadInfo) -> u64
    ensures { result ≡ (thread_meant t).counts.yields }
{
    t.stats.yields
}

// Whether the thread waits for `on` to exit.
pub fn is_waiter(t: ThreadInfo, on: Tid) -> bool
    ensures { result ≡ blocked_on on.0 (thread_meant t).state }
{
    t.state == ThreadState::Blocked(on)
}

// How a join by `caller` of `target` turns out, where t is the target's record.
#[tactic(auto, unfolding(model::specs::Calls::outcome))]
pub fn join_outcome(caller: Tid, target: Tid, t: ThreadInfo) -> JoinOutcome
    ensures { join_meant result ≡ outcome caller.0 target.0 (some (thread_meant t).state) }
{
    if target == caller {
        return JoinOutcome::Invalid;
    }
    match t.state {
        ThreadState::Ready | ThreadState::Running(_) | ThreadState::Blocked(_) => JoinOutcome::Wait,
        ThreadState::Exited => JoinOutcome::Done,
    }
}

// Thread i goes to the back of the queue where its record t waits for `on`: the queue's new length.
pub fn push_waiter(queue: &mut [u32], len: usize, t: ThreadInfo, on: Tid, i: usize) -> usize
    requires { (i < 4294967296) × (len + length (waiter_at on.0 i (thread_meant t)) ≤ length queue.old) }
    ensures { Pushed (waiter_at on.0 i (thread_meant t)) len queue.old result queue.new }
{
    if is_waiter(t, on) {
        queue[len] = i as u32;
        return len + 1;
    }
    len
}
