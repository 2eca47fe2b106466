// The call `new`.
// `new` is for hosts, and so is `new_on` for one that has its memory in one value; `set_first` is a part.
#![tactic(auto)]

ghost use Rattle.std.specs.Prelude.{◌≡◌, ◌≤◌, length};
ghost use Rattle.walkkit.specs.Firsts.{firsts};
ghost use Rattle.state.specs.Memory.{memory, held, SameLoans};
ghost use Rattle.new_plan.specs.Made.{same_at, NewDone};

use model::ThreadInfo;
use new_plan::{Created, check_new, new_finished, taken_count};
use records::change::first_thread;
use settings::SchedConfig;
use state::Capacities;
use state::memory::LentMemory;

// The first n records become t.
pub fn set_first(threads: &mut [ThreadInfo], n: usize, t: ThreadInfo)
    requires { n ≤ length threads.old }
    ensures { threads.new ≡ firsts (same_at t) n threads.old }
{
    threads[..n].fill(t);
}

// "`new` starts thread 0 running on core 0, priority 10." It writes the first record and priority, and the log; a refused call writes nothing.
pub fn new(
    config: SchedConfig,
    cores: u32,
    capacities: Capacities,
    entry_pc: u32,
    threads: &mut [ThreadInfo],
    queue: &[u32],
    prios: &mut [u32],
    log: &mut [u64],
    lanes: &[u64],
) -> Created
    ensures { NewDone config cores capacities entry_pc (memory threads.old queue.now prios.old log.old lanes.now)
        (memory threads.new queue.now prios.new log.new lanes.now) result.sched result.answer }
{
    let answer = check_new(
        config,
        cores,
        capacities,
        threads.len(),
        queue.len(),
        prios.len(),
        log.len(),
        lanes.len(),
    );
    let n = taken_count(answer);
    let t = first_thread(entry_pc);
    set_first(threads, n, t);
    new_finished(config, cores, capacities, answer, prios, log)
}

// `new` on the lent memory as one value: queue and lanes stay as they are.
pub fn new_on(
    config: SchedConfig,
    cores: u32,
    capacities: Capacities,
    entry_pc: u32,
    m: &mut LentMemory,
) -> Created
    ensures done { NewDone config cores capacities entry_pc (held m.old) (held m.new) result.sched result.answer }
    ensures queue { m.new.queue.now ≡ m.old.queue.now }
    ensures lanes { m.new.lanes.now ≡ m.old.lanes.now }
    ensures lent { SameLoans m.old m.new }
{
    let threads = &mut *m.threads;
    let queue = &mut *m.queue;
    let prios = &mut *m.prios;
    let log = &mut *m.log;
    let lanes = &mut *m.lanes;
    new(
        config, cores, capacities, entry_pc, threads, queue, prios, log, lanes,
    )
}
