// Runs a script of calls from standard input, and writes what each call answers and, where a line asks for it, the whole state. The first line says how
// many follow. differential/program compares what is written with the original Rust.
#![tactic(auto)]

ghost use Rattle.std.specs.Prelude.{◌≡◌, ◌≤◌, length};
ghost use Rattle.state.specs.Memory.{held, SameLoans};
ghost use Rattle.state.specs.State.{Valid};

use records::change::first_thread;
use sched::{Call, apply};
use sched_new::new_on;
use settings::{SchedConfig, SchedPolicy};
use state::memory::LentMemory;
use state::{Capacities, Sched};
use thread_questions::asked_in;
use trace_answers::{print_applied, print_bad, print_created, print_shown};
use trace_read::lines::{read_count, read_line};
use trace_read::{Line, Setup};
use trace_records::history::print_rest;
use trace_records::thread::print_thread;
use trace_state::cores::{Left, print_figures, print_front};

fn main() {
    let mut threads = [first_thread(0); 256];
    let mut queue = [0u32; 256];
    let mut prios = [0u32; 256];
    let mut log = [0u64; 1024];
    let mut lanes = [0u64; 65616];
    // more lines than that are not read
    let n = read_count().min(1_000_000_000);
    let mut m = LentMemory {
        threads: &mut threads,
        queue: &mut queue,
        prios: &mut prios,
        log: &mut log,
        lanes: &mut lanes,
    };
    run(n, &mut m);
}

// The whole state.
fn show(s: Sched, m: &LentMemory)
    requires { Valid s (held m.now) }
{
    print_shown();
    print_front(s, m.queue);
    for t in thread_questions::threads(s, m.threads) {
        print_thread(*t);
    }
    let asked = asked_in(s, m.threads);
    let left = Left {
        live: asked.live,
        runnable: asked.runnable,
        deadlocked: asked.deadlocked,
    };
    print_rest(s, left, m.log, m.lanes);
    let f = asked.bits;
    print_figures(f.waiting, f.response, f.turnaround, f.utilization);
}

// `new`; a refused one leaves the scheduler that is there.
fn start(setup: Setup, s: Sched, m: &mut LentMemory) -> Sched
    requires { Valid s (held m.old) }
    ensures valid { Valid result (held m.new) }
    ensures lent { SameLoans m.old m.new }
{
    let created = new_on(
        setup.config,
        setup.cores,
        setup.capacities,
        setup.entry_pc,
        m,
    );
    print_created(created.answer);
    match created.answer {
        Ok(()) => created.sched,
        Err(_) => s,
    }
}

// Any other call.
fn step(s: Sched, call: Call, m: &mut LentMemory) -> Sched
    requires { Valid s (held m.old) }
    ensures valid { Valid result (held m.new) }
    ensures lent { SameLoans m.old m.new }
{
    let applied = apply(s, call, m);
    print_applied(applied);
    applied.sched
}

// One line of the script.
fn trace_line(s: Sched, line: Line, m: &mut LentMemory) -> Sched
    requires { Valid s (held m.old) }
    ensures valid { Valid result (held m.new) }
    ensures lent { SameLoans m.old m.new }
{
    match line {
        Line::New(setup) => start(setup, s, m),
        Line::Call(call) => step(s, call, m),
        Line::Show => {
            show(s, m);
            s
        }
    }
}

// The scheduler that there is before a script's first line.
fn first(m: &mut LentMemory) -> Sched
    requires { (length m.old.threads.now ≡ 256) × (length m.old.queue.now ≡ 256) × (length m.old.prios.now ≡ 256) × (length m.old.log.now ≡ 1024)
        × (length m.old.lanes.now ≡ 65616) }
    ensures valid { Valid result (held m.new) }
    ensures lent { SameLoans m.old m.new }
{
    let config = SchedConfig {
        policy: SchedPolicy::RoundRobin,
        quantum: 1,
        switch_cost: 0,
    };
    let capacities = Capacities {
        threads: 1,
        events: 1,
        segments: 1,
    };
    let created = new_on(config, 1, capacities, 0, m);
    created.sched
}

// The first n lines of the script.
fn run(n: usize, m: &mut LentMemory)
    requires { (n ≤ 1000000000) × (length m.old.threads.now ≡ 256) × (length m.old.queue.now ≡ 256) × (length m.old.prios.now ≡ 256)
        × (length m.old.log.now ≡ 1024) × (length m.old.lanes.now ≡ 65616) }
    ensures { SameLoans m.old m.new }
{
    let mut s = first(m);
    for _ in 0..n {
        match read_line() {
            Some(line) => s = trace_line(s, line, m),
            None => print_bad(),
        }
    }
}
