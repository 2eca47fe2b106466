// Charging one tick to one thread's record.
ghost use Rattle.std.specs.Prelude.{◌≡◌, List, ◌<◌};
ghost use Rattle.model.specs.declared.CoreState as CoreStates;
ghost use Rattle.model.specs.Reading.{thread_meant, thread_state_meant};
ghost use Rattle.model.specs.Calls.{elem};
ghost use Rattle.charges.specs.Charging.{nobody, holder_word, has_others, core_threads_of, runs_held, ready_due, blocked_due, Chargeable, charge_thread, cores_meant};

use model::{CoreState, ThreadInfo, ThreadState};

// The number that no thread has.
const NOBODY: u32 = 4_294_967_295;

// The threads that hold the eight cores, running or switching in, and which of the cores run them. NOBODY stands where none does: a number and no
// Option, so that a thread's core is found by comparing eight words. Made once for a tick.
// `others` says whether any core but the first is held: on a board of one core none is, and only the first is asked.
#[derive(Clone, Copy, PartialEq, Eq, Debug)]
pub struct CoreThreads {
    pub others: bool,
    pub held: [u32; 8],
    pub running: [bool; 8],
}

impl CoreThreads {
    pub fn new(cores: [CoreState; 8]) -> Self
        ensures { result ≡ core_threads_of cores }
    {
        let mut held = [NOBODY; 8];
        let mut running = [false; 8];
        for (k, &core) in cores.iter().enumerate() {
            held[k] = holder_word(core);
            running[k] = core.is_running();
        }
        CoreThreads {
            others: has_others(held),
            held,
            running,
        }
    }

    // Whether the thread holds a core.
    fn holds(self, tid: u32) -> bool
        requires { tid < nobody }
        ensures { self.others ≡ has_others self.held → result ≡ elem tid self.held }
    {
        self.held[0] == tid || self.others && has_word(self.held, tid)
    }

    // Whether a core runs it.
    fn runs(self, tid: u32) -> bool
        requires { tid < nobody }
        ensures { self.others ≡ has_others self.held → result ≡ runs_held tid self.held self.running }
    {
        if self.others {
            is_run(self.held, self.running, tid)
        } else {
            self.held[0] == tid && self.running[0]
        }
    }
}

fn holder_word(core: CoreState) -> u32
    ensures { result ≡ holder_word core }
{
    core.tid().map_or(NOBODY, |tid| tid.0)
}

// No early end, here and in the two loops below: the compares are independent of each other.
#[tactic(auto, unfolding(crate::specs::Charging::has_others))]
fn has_others(held: [u32; 8]) -> bool
    ensures { result ≡ has_others held }
{
    let mut found = false;
    for &word in &held[1..] {
        found |= word != NOBODY;
    }
    found
}

#[tactic(auto, using(crate::proofs::Charging::elem_next), unfolding(model::specs::Calls::elem))]
fn has_word(words: [u32; 8], wanted: u32) -> bool
    ensures { result ≡ elem wanted words }
{
    let mut found = false;
    for word in words {
        found |= word == wanted;
    }
    found
}

// Whether a core that the thread holds runs it.
#[tactic(auto, using(crate::proofs::Charging::runs_held_next), unfolding(crate::specs::Charging::runs_held))]
fn is_run(held: [u32; 8], running: [bool; 8], tid: u32) -> bool
    ensures { result ≡ runs_held tid held running }
{
    let mut found = false;
    for (k, &word) in held.iter().enumerate() {
        found |= (word == tid) & running[k];
    }
    found
}

// What a tick adds to a counter: 0 or 1, so that a record is charged by sums and nothing else of it is moved.
fn ready_due(state: ThreadState) -> u64
    ensures { result ≡ ready_due (thread_state_meant state) }
{
    u64::from(state == ThreadState::Ready)
}

fn blocked_due(state: ThreadState) -> u64
    ensures { result ≡ blocked_due (thread_state_meant state) }
{
    u64::from(matches!(&state, ThreadState::Blocked(_)))
}

// Thread i's record, in place, after a tick in which the cores were as `on` says. Few threads hold a core, so that is asked once, and what the core does only then.
pub fn charge(t: &mut ThreadInfo, i: usize, on: CoreThreads)
    requires { Chargeable i (thread_meant t.old) }
    ensures { (cores : List CoreStates.CoreState) → on ≡ core_threads_of cores → thread_meant t.new ≡ charge_thread (cores_meant cores) i (thread_meant t.old) }
{
    let tid = i as u32;
    if on.holds(tid) {
        t.stats.run_ticks += u64::from(on.runs(tid));
        return;
    }
    t.stats.ready_ticks += ready_due(t.state);
    t.stats.blocked_ticks += blocked_due(t.state);
}
