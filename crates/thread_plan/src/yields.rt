// `yield_now`, without the records but that of the thread on the core.
ghost use Rattle.std.specs.Prelude.{◌≡◌, true, List, ℕ, ◌≤◌, leb, get_or};
ghost use Rattle.std.proofs.Math.Option.{none};
ghost use Rattle.model.specs.Reading.{call_answer_meant};
ghost use Rattle.model.specs.Calls as Calls;
ghost use Rattle.model.specs.declared.ThreadInfo as Infos;
ghost use Rattle.threads.specs.Slice.{blank};
ghost use Rattle.state.specs.Memory.{memory};
ghost use Rattle.state.specs.State.{Valid};
ghost use Rattle.checks.specs.Check.{check_meant, core_refusal};
ghost use Rattle.updates.specs.Pending.{Pending};
ghost use Rattle.thread_plan.specs.Reads.{known_place, own_tid};

use crate::Decided;
use crate::own::own_tid;
use checks::{LIMIT, Needs, check_core};
use model::{CoreId, ThreadInfo};
use record_reads::read::yields_of;
use records::change::Change;
use settings::Refusal;
use state::Sched;

// yield: 4, 11, 12, 13, 19
#[tactic(auto, using(crate::proofs::Yielding::yield_over, crate::proofs::Yielding::yield_under))]
fn check_yield(s: Sched, core: CoreId, yields: u64) -> Result<(), Refusal>
    requires { s.cores ≤ 8 }
    ensures { check_meant result ≡ core_refusal s core.0 true (Calls.check 19 (leb Calls.limit_now yields) none) }
{
    check_core(s, core, Needs::Running)?;
    if LIMIT <= yields {
        return Err(Refusal::CounterLimit);
    }
    Ok(())
}

pub fn yield_decided(s: Sched, core: CoreId, t: ThreadInfo) -> Decided<()>
    requires { s.cores ≤ 8 }
    ensures { (ts : List Infos.ThreadInfo) (qs ps ls ws : List ℕ) → Valid s (memory ts qs ps ls ws)
        → t ≡ get_or ts (known_place s (own_tid s core.0)) blank
        → Pending (Calls.yield core.0) (call_answer_meant result.answer) s result.sched result.place result.change ts qs qs ps ps ls ls ws ws }
{
    let answer = check_yield(s, core, yields_of(t));
    match answer {
        Err(_) => Decided::unchanged(s, answer),
        Ok(()) => {
            let i = core.0 as usize;
            let own = own_tid(s, core);
            let mut next = s;
            next.marks.yields[i] = true;
            Decided {
                sched: next,
                answer,
                place: own.0 as usize,
                change: Change::Yield,
            }
        }
    }
}
