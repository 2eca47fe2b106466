// A list of calls, made one after the other on a fresh scheduler. Its contract is the round robin guarantee over lists of calls.
// `replay` takes the calls themselves, `replay_words` a list of words, three a call: kind, first, second (`call_of` in specs/Encoding.antt).
#![tactic(auto)]

mod words;

ghost use Rattle.std.specs.Prelude.{◌≡◌, ◌*◌, ◌<◌, ◌≤◌, map, length, take};
ghost use Rattle.model.specs.Calls.{ok};
ghost use Rattle.state.specs.Memory.{held, SameLoans};
ghost use Rattle.state.specs.State.{Valid};
ghost use Rattle.switches.specs.Entries.{no_switches};
ghost use Rattle.checks.specs.Check.{check_meant};
ghost use Rattle.sched.specs.Meant.{call_meant, outcome_meant};
ghost use Rattle.replay.specs.Encoding.{calls_of};
ghost use Rattle.replay.specs.Replay.{due, AppliedAll, ReplayDone};

use new_plan::Created;
use sched::{Applied, Call, Outcome, apply};
use sched_new::new_on;
use settings::{Refusal, SchedConfig};
use state::memory::LentMemory;
use state::{Capacities, Sched};
use switches::{SwitchList, no_switches};
use words::call_at;

// What `new` answered, the answer to the last call made, and what it left.
#[derive(Clone, Copy)]
pub struct Replayed {
    pub made: Result<(), Refusal>,
    pub sched: Sched,
    pub outcome: Result<Outcome, Refusal>,
    pub switches: SwitchList,
}

// How many calls are made: none where `new` is refused.
fn calls_due(created: Created, count: usize, upto: usize) -> usize
    ensures { result ≡ due (check_meant created.answer) count upto }
{
    match created.answer {
        Ok(()) => upto.min(count),
        Err(_) => 0,
    }
}

// Before the first call: what `new` left.
fn first_of(created: Created) -> Applied
    ensures { (result.sched ≡ created.sched) × (outcome_meant result.outcome result.switches ≡ ok) × (result.switches ≡ no_switches) }
{
    Applied {
        sched: created.sched,
        outcome: Ok(Outcome::Taken),
        switches: no_switches(),
    }
}

fn replay_of(created: Created, last: Applied) -> Replayed
    ensures { (result.made ≡ created.answer) × (result.sched ≡ last.sched) × (result.outcome ≡ last.outcome) × (result.switches ≡ last.switches) }
{
    Replayed {
        made: created.answer,
        sched: last.sched,
        outcome: last.outcome,
        switches: last.switches,
    }
}

// The calls of a list, each given what the one before left.
fn apply_all(first: Applied, calls: &[Call], m: &mut LentMemory) -> Applied
    requires { 0 < length calls.now → Valid first.sched (held m.old) }
    ensures done { AppliedAll (map call_meant calls.now) first result (held m.old) (held m.new) }
    ensures lent { SameLoans m.old m.new }
{
    let mut last = first;
    for call in calls {
        last = apply(last.sched, *call, m);
    }
    last
}

// The first n calls of a list of words, each given what the one before left.
fn apply_words(first: Applied, words: &[u32], n: usize, m: &mut LentMemory) -> Applied
    requires { (3 * n ≤ length words.now) × (0 < n → Valid first.sched (held m.old)) }
    ensures done { AppliedAll (take n (calls_of words.now)) first result (held m.old) (held m.new) }
    ensures lent { SameLoans m.old m.new }
{
    let mut last = first;
    for i in 0..n {
        last = apply(last.sched, call_at(words, i), m);
    }
    last
}

// Demand 3 over every list of calls: a scheduler is made, and the first `upto` calls of the list are made on it (all, where it has fewer).
// It serves its contract: since `upto` is any number, the contract speaks of the state and the answer after `new` and after every call.
pub fn replay(
    config: SchedConfig,
    cores: u32,
    capacities: Capacities,
    entry_pc: u32,
    calls: &[Call],
    upto: usize,
    m: &mut LentMemory,
) -> Replayed
    ensures done { ReplayDone config cores capacities entry_pc (map call_meant calls.now) upto (held m.old) (held m.new) result }
    ensures lent { SameLoans m.old m.new }
{
    let created = new_on(config, cores, capacities, entry_pc, m);
    let n = calls_due(created, calls.len(), upto);
    let first = first_of(created);
    let last = apply_all(first, &calls[..n], m);
    replay_of(created, last)
}

// The same of a list of words: every three are some call, one or two left over are none.
pub fn replay_words(
    config: SchedConfig,
    cores: u32,
    capacities: Capacities,
    entry_pc: u32,
    words: &[u32],
    upto: usize,
    m: &mut LentMemory,
) -> Replayed
    ensures done { ReplayDone config cores capacities entry_pc (calls_of words.now) upto (held m.old) (held m.new) result }
    ensures lent { SameLoans m.old m.new }
{
    let made = new_on(config, cores, capacities, entry_pc, m);
    let n = calls_due(made, words.len() / 3, upto);
    let first = first_of(made);
    let last = apply_words(first, words, n, m);
    replay_of(made, last)
}
