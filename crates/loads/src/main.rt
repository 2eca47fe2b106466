// A load on the scheduler, to be timed beside the same load on the original Rust (differential/speed). Standard input holds seven
// numbers, one to a line: policy (0 off, 1 fifo, 2 rr, 3 priority), quantum, switch cost, cores, threads, ticks, repetitions.
// A load is made so many times: `new`, the spawns by thread 0, and then the ticks, in each of which every core reports by `retired` and `end_tick` ends it.
// What the last repetition left is printed. Memory is lent once: 256 threads, 512 events, 4,096 segments a core.
#![tactic(auto)]

use model::ThreadInfo;
use records::change::first_thread;
use settings::{Refusal, SchedConfig, SchedPolicy};
use state::Capacities;
use state::memory::LentMemory;
use text::numbers::read_number;
use text::{STDIN_FILENO, STDOUT_FILENO};
use ticking::{Loaded, run_load};

#[derive(Clone, Copy)]
struct Load {
    config: SchedConfig,
    cores: u32,
    threads: u32,
    ticks: u32,
    repetitions: u32,
}

// Sums over all thread records.
#[derive(Clone, Copy)]
struct Sums {
    ready: u64,
    run: u64,
    preemptions: u64,
}

fn main() {
    let mut input = io::buffer();
    let n = io::read_full(STDIN_FILENO, &mut input);
    let load = load_of(&input[..n]);
    let mut threads = [first_thread(0); 256];
    let last = repeat(load, &mut threads);
    report(last, &threads);
}

fn load_of(text: &[u8]) -> Load {
    let config = SchedConfig {
        // a number above 3 is off
        policy: SchedPolicy::numbered(number_at(text, 0)).unwrap_or(SchedPolicy::Off),
        quantum: number_at(text, 1),
        switch_cost: number_at(text, 2),
    };
    Load {
        config,
        cores: number_at(text, 3),
        threads: number_at(text, 4),
        ticks: number_at(text, 5),
        repetitions: number_at(text, 6),
    }
}

// The number on a line, counted from 0; 0 where it is missing or can't be read.
fn number_at(text: &[u8], line: usize) -> u32 {
    match text.split_inclusive(|b| *b == b'\n').nth(line) {
        Some([digits @ .., _]) => number_of(digits),
        _ => 0,
    }
}

fn number_of(digits: &[u8]) -> u32 {
    match read_number(digits) {
        Some(n) => n,
        None => 0,
    }
}

// The load is made once, and then as often as asked, each time on the memory that the one before left.
fn repeat(load: Load, threads: &mut [ThreadInfo]) -> Loaded {
    let mut queue = [0u32; 256];
    let mut prios = [0u32; 256];
    let mut log = [0u64; 1024];
    let mut lanes = [0u64; 65_616];
    let mut m = LentMemory {
        threads,
        queue: &mut queue,
        prios: &mut prios,
        log: &mut log,
        lanes: &mut lanes,
    };
    let mut last = once(load, &mut m);
    for _ in 1..load.repetitions {
        last = once(load, &mut m);
    }
    last
}

fn once(load: Load, m: &mut LentMemory) -> Loaded {
    let capacities = Capacities {
        threads: 256,
        events: 512,
        segments: 4096,
    };
    let ticks = load.ticks as usize;
    run_load(
        load.config,
        load.cores,
        capacities,
        others(load.threads),
        ticks,
        m,
    )
}

// How many threads there are beside thread 0.
fn others(threads: u32) -> usize {
    threads.saturating_sub(1) as usize
}

fn report(last: Loaded, threads: &[ThreadInfo]) {
    let sums = sums_of(threads);
    print_number(b"refused=", refusal_of(last.made));
    print_number(b"context_switches=", last.sched.context_switches);
    print_number(b"now=", last.sched.now.0);
    print_number(b"ready_ticks=", sums.ready);
    print_number(b"run_ticks=", sums.run);
    print_number(b"preemptions=", sums.preemptions);
}

// What `new` answered: 0 where it made the scheduler.
fn refusal_of(made: Result<(), Refusal>) -> u64 {
    match made {
        Ok(()) => 0,
        Err(k) => k.number(),
    }
}

fn sums_of(threads: &[ThreadInfo]) -> Sums {
    let none = Sums {
        ready: 0,
        run: 0,
        preemptions: 0,
    };
    threads.iter().fold(none, |sums, t| added(sums, *t))
}

fn added(sums: Sums, t: ThreadInfo) -> Sums {
    Sums {
        ready: sums.ready.wrapping_add(t.stats.ready_ticks),
        run: sums.run.wrapping_add(t.stats.run_ticks),
        preemptions: sums.preemptions.wrapping_add(t.stats.preemptions),
    }
}

// A text, a number and byte 10.
fn print_number(text: &[u8], n: u64) {
    print(text);
    io::print_decimal(STDOUT_FILENO, n);
    print(b"\n");
}

fn print(text: &[u8]) {
    io::write_all(STDOUT_FILENO, text);
}
