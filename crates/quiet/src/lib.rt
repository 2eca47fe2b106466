// A tick end that switches nothing: told from the state, and what it leaves of the core states. Both work on the words between calls, so that such a tick neither
// runs the phases nor packs the core states anew.
// With one core the seven others are left out, not tested one by one.
// Its public functions are parts for other crates: no host calls them.
#![tactic(auto)]

ghost use Rattle.std.specs.Prelude.{◌≡◌, true, false, ◌||◌, ℕ, ◌<◌, ◌≤◌, leb, get_or};
ghost use Rattle.settings.specs.Reading.{policy_meant};
ghost use Rattle.model.specs.Reading.{core_state_meant};
ghost use Rattle.state.specs.State.{words_of, packed, state_in, states_of};
ghost use Rattle.quiet.specs.Quiet.{calm_in, calm_at, each_below, is_priority, is_quiet, sliced_below, state_at, Roomy};

use settings::SchedPolicy;
use state::{CoreWords, Eight, Sched};
use turns::Marks;

fn is_priority(policy: SchedPolicy) -> bool
    ensures { result ≡ is_priority (policy_meant policy) }
{
    match policy {
        SchedPolicy::Off => false,
        SchedPolicy::Fifo => false,
        SchedPolicy::RoundRobin => false,
        SchedPolicy::Priority => true,
    }
}

// Whether core i of n keeps its thread; a core that is not there has none to lose.
fn is_calm(n: usize, i: usize, w: CoreWords, marks: Marks, preemptive: bool, quantum: u32) -> bool
    requires { i < 8 }
    ensures { result ≡ (leb n i || calm_in preemptive quantum (get_or marks.exits i false) (get_or marks.blocks i false) (get_or marks.yields i false) (get_or marks.progressed i false) (core_state_meant (state_in w))) }
{
    if n <= i {
        return true;
    }
    if w.kind < 2 {
        return false;
    }
    if marks.exits[i] {
        return false;
    }
    if marks.blocks[i] {
        return false;
    }
    if marks.yields[i] {
        return false;
    }
    if !preemptive {
        return true;
    }
    if !marks.progressed[i] {
        return true;
    }
    w.count as u64 + 1 < quantum as u64
}

// Whether every core keeps its thread in phases 1 to 5; `rr` says whether a quantum ends a stay, and `q` is the quantum.
fn are_calm(s: Sched, rr: bool, q: u32) -> bool
    requires { s.cores ≤ 8 }
    ensures { result ≡ each_below (calm_at s rr q) s.cores }
{
    let n = s.cores;
    let w = s.states;
    let m = s.marks;
    if !is_calm(n, 0, w.c0, m, rr, q) {
        return false;
    }
    if n == 1 {
        return true;
    }
    if !is_calm(n, 1, w.c1, m, rr, q) {
        return false;
    }
    if !is_calm(n, 2, w.c2, m, rr, q) {
        return false;
    }
    if !is_calm(n, 3, w.c3, m, rr, q) {
        return false;
    }
    if !is_calm(n, 4, w.c4, m, rr, q) {
        return false;
    }
    if !is_calm(n, 5, w.c5, m, rr, q) {
        return false;
    }
    if !is_calm(n, 6, w.c6, m, rr, q) {
        return false;
    }
    is_calm(n, 7, w.c7, m, rr, q)
}

// Whether every core keeps its thread. Phase 6 could still preempt under priority, so that policy is left to the phases.
pub fn is_quiet(s: Sched) -> bool
    requires { s.cores ≤ 8 }
    ensures { result ≡ is_quiet s }
{
    if is_priority(s.config.policy) {
        return false;
    }
    are_calm(s, s.config.policy.is_preemptive(), s.config.quantum)
}

// Core i of n, one tick further; a core that is not there stays as it is.
fn sliced_words(w: CoreWords, n: usize, i: usize) -> CoreWords
    requires { i < n → (2 ≤ w.kind) × (w.count < 4294967295) }
    ensures state { core_state_meant (state_in result) ≡ sliced_below n i (core_state_meant (state_in w)) }
    ensures words { w ≡ words_of (state_in w) → result ≡ words_of (state_in result) }
{
    if n <= i {
        return w;
    }
    CoreWords {
        kind: w.kind,
        tid: w.tid,
        count: w.count + 1,
    }
}

// The core states after a quiet tick.
pub fn sliced_states(s: Sched) -> Eight
    requires { (s.cores ≤ 8) × (is_quiet s ≡ true) × Roomy s }
    ensures states { (j : ℕ) → state_at result j ≡ sliced_below s.cores j (state_at s.states j) }
    ensures words { s.states ≡ packed (states_of s.states) → result ≡ packed (states_of result) }
{
    let n = s.cores;
    let w = s.states;
    let c0 = sliced_words(w.c0, n, 0);
    if n == 1 {
        let mut r = w;
        r.c0 = c0;
        return r;
    }
    let c1 = sliced_words(w.c1, n, 1);
    let c2 = sliced_words(w.c2, n, 2);
    let c3 = sliced_words(w.c3, n, 3);
    let c4 = sliced_words(w.c4, n, 4);
    let c5 = sliced_words(w.c5, n, 5);
    let c6 = sliced_words(w.c6, n, 6);
    let c7 = sliced_words(w.c7, n, 7);
    Eight {
        c0: c0,
        c1: c1,
        c2: c2,
        c3: c3,
        c4: c4,
        c5: c5,
        c6: c6,
        c7: c7,
    }
}
