// Who is next.
ghost use Rattle.std.specs.Prelude.{◌≡◌};
ghost use Rattle.std.proofs.Math.Option.{none, some};
ghost use Rattle.model.specs.Phases.{choose, most_urgent, eligible};
ghost use Rattle.settings.specs.Reading.{policy_meant};
ghost use Rattle.queue.specs.Ready.{Chosen, front, prio_of};

use model::Tid;
use settings::SchedPolicy;

// A thread's priority number; 0 where there is no such thread.
pub fn priority_of(prios: &[u32], tid: Tid) -> u32
    ensures { result ≡ prio_of prios.now tid.0 }
{
    let i = tid.0 as usize;
    if i < prios.len() { prios[i] } else { 0 }
}

// The place of the smallest number up to the ceiling, the earliest among equals. Each waiting thread's number is read once.
pub fn most_urgent(prios: &[u32], waiting: &[u32], ceiling: u32) -> Option<usize>
    ensures under { Chosen (most_urgent (prio_of prios.now) (eligible (prio_of prios.now) (some ceiling) waiting.now)) waiting.now result }
    ensures any { ceiling ≡ 4294967295 → Chosen (most_urgent (prio_of prios.now) waiting.now) waiting.now result }
{
    // the length while nobody is found: an Option would be one more word to keep in each turn
    let mut best = waiting.len();
    let mut low = ceiling;
    for i in (0..waiting.len()).rev() {
        let p = priority_of(prios, Tid(waiting[i]));
        if p <= low {
            best = i;
            low = p;
        }
    }
    if best < waiting.len() {
        Some(best)
    } else {
        None
    }
}

// The place of the next thread: the front, or under priority the most urgent up to the ceiling. The ceiling 4,294,967,295 excludes nobody.
#[tactic(auto, unfolding(model::specs::Phases::choose, model::specs::Phases::eligible))]
pub fn pick_next(policy: SchedPolicy, prios: &[u32], waiting: &[u32], ceiling: u32) -> Option<usize>
    ensures under { Chosen (choose (policy_meant policy) (prio_of prios.now) (some ceiling) waiting.now) waiting.now result }
    ensures any { ceiling ≡ 4294967295 → Chosen (choose (policy_meant policy) (prio_of prios.now) none waiting.now) waiting.now result }
{
    match policy {
        SchedPolicy::Off | SchedPolicy::Fifo | SchedPolicy::RoundRobin => front(waiting),
        SchedPolicy::Priority => most_urgent(prios, waiting, ceiling),
    }
}

// The place of the front.
fn front(waiting: &[u32]) -> Option<usize>
    ensures { Chosen (front waiting.now) waiting.now result }
{
    if waiting.is_empty() { None } else { Some(0) }
}
