// `join`, without the records but the target's.
ghost use Rattle.std.specs.Prelude.{◌≡◌, cond, List, ℕ, ◌≤◌, leb, get_or};
ghost use Rattle.std.proofs.Math.Option.{some};
ghost use Rattle.model.specs.Reading.{join_meant, join_answer_meant, thread_meant};
ghost use Rattle.model.specs.Calls as Calls;
ghost use Rattle.model.specs.declared.ThreadInfo as Infos;
ghost use Rattle.threads.specs.Slice.{blank};
ghost use Rattle.state.specs.Memory.{memory};
ghost use Rattle.state.specs.State.{Valid};
ghost use Rattle.updates.specs.Pending.{Pending};
ghost use Rattle.thread_plan.specs.Reads.{known_place};

use crate::Decided;
use crate::own::own_tid;
use checks::{Needs, check_core};
use model::{CoreId, JoinOutcome, ThreadInfo, Tid};
use record_reads::read::join_outcome;
use records::change::Change;
use state::Sched;

// 01: "`join` of oneself or of an unknown thread is invalid, of an exited one done, otherwise wait." t is the target's record, if the target is known.
fn outcome_of(s: Sched, caller: Tid, target: Tid, t: ThreadInfo) -> JoinOutcome
    ensures { join_meant result ≡ cond (leb s.threads target.0) Calls.Invalid (Calls.outcome caller.0 target.0 (some (thread_meant t).state)) }
{
    if s.threads <= target.0 as usize {
        return JoinOutcome::Invalid;
    }
    join_outcome(caller, target, t)
}

pub fn join_decided(s: Sched, core: CoreId, target: Tid, t: ThreadInfo) -> Decided<JoinOutcome>
    requires { s.cores ≤ 8 }
    ensures { (ts : List Infos.ThreadInfo) (qs ps ls ws : List ℕ) → Valid s (memory ts qs ps ls ws)
        → t ≡ get_or ts (known_place s target.0) blank
        → Pending (Calls.join core.0 target.0) (join_answer_meant result.answer) s result.sched result.place result.change ts qs qs ps ps ls ls ws ws }
{
    if let Err(refusal) = check_core(s, core, Needs::Running) {
        return Decided::unchanged(s, Err(refusal));
    }
    let caller = own_tid(s, core);
    let outcome = outcome_of(s, caller, target, t);
    match outcome {
        JoinOutcome::Wait => {
            let i = core.0 as usize;
            let mut next = s;
            next.marks.blocks[i] = true;
            Decided {
                sched: next,
                answer: Ok(outcome),
                place: caller.0 as usize,
                change: Change::Block { on: target },
            }
        }
        JoinOutcome::Done | JoinOutcome::Invalid => Decided::unchanged(s, Ok(outcome)),
    }
}
