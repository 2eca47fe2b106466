// Lists of calls on which the bounds of demand 3 are reached. For each board a line is printed: cores, quantum, switch cost, p, the bound
// by the paper's formula, the unrefused ticks after which the thread got its core, and its run ticks in the stay that followed.
//
// The list: thread 0 spawns cores + p others and yields in the first tick, at whose end every core takes another thread at once. Thread 0
// then stands in the queue behind p others. Before each tick every core reports. What is printed of p, of the ticks and of the stay is
// read off what the calls left: the list is replayed up to each tick end.
#![tactic(auto)]

ghost use Rattle.std.specs.Prelude.{◌≤◌, length};
ghost use Rattle.text.specs.Buffers.{StillLent};

use model::{CoreId, Switch, ThreadInfo, Tid};
use records::change::first_thread;
use replay::{Replayed, replay};
use sched::{Call, Outcome};
use settings::{Refusal, SchedConfig, SchedPolicy};
use state::Capacities;
use state::memory::LentMemory;
use switches::SwitchList;
use text::STDOUT_FILENO;

const CALLS: usize = 3_000;

#[derive(Clone, Copy)]
struct Board {
    cores: u32,
    quantum: u32,
    cost: u32,
    spawns: u32,
}

// What is read after a call.
#[derive(Clone, Copy)]
struct Seen {
    // how many stand before thread 0 in the queue, where it is there
    before: Option<usize>,
    // 1 where the call was a tick that is not refused
    ticked: u64,
    taken: bool,
    left: bool,
    run: u64,
}

// A list that is being made: the first `count` are its calls.
#[derive(Drop)]
struct CallList<'a> {
    calls: &'a mut [Call],
    count: usize,
}

#[derive(Clone, Copy)]
struct Found {
    ticks: u64,
    stay: u64,
}

fn main() {
    show(1, 1, 0, 0);
    show(2, 3, 1, 4);
    show(1, 5, 2, 3);
    show(3, 1, 4, 7);
    show(4, 50, 10, 0);
    show(8, 2, 0, 20);
    show(8, 5, 1, 247);
}

fn show(cores: u32, quantum: u32, cost: u32, p: u32) {
    let spawns = cores.wrapping_add(p);
    let board = Board {
        cores,
        quantum,
        cost,
        spawns,
    };
    let mut calls = [Call::EndTick; CALLS];
    let start = put_calls(&mut calls, board);
    let seen = after(board, &calls, start);
    let Some(before) = seen.before else {
        print(b"thread 0 does not wait\n");
        return;
    };
    let found = follow(board, &calls, start);
    print_number(b"cores=", cores as u64);
    print_number(b",quantum=", quantum as u64);
    print_number(b",cost=", cost as u64);
    print_number(b",p=", before as u64);
    print_number(b",bound=", bound(before as u64, cores, quantum, cost));
    print_number(b",ticks=", found.ticks);
    print_number(b",stay=", found.stay);
    print(b"\n");
}

// (p / cores + 1) × (quantum + cost), 0 cores counted as 1.
fn bound(p: u64, cores: u32, quantum: u32, cost: u32) -> u64 {
    let window = quantum as u64 + cost as u64;
    let windows = p / (cores as u64).max(1);
    windows.wrapping_add(1).wrapping_mul(window)
}

// The whole list, and how many calls there are up to the end of the first tick.
fn put_calls(calls: &mut [Call], board: Board) -> usize
    ensures { result ≤ length calls.new }
{
    let mut list = CallList { calls, count: 0 };
    list.put_start(board);
    let start = list.count;
    list.put_ticks(board.cores);
    start
}

impl CallList<'_> {
    // The next call. A full list stays as it is.
    fn put(&mut self, call: Call)
        ensures within { self.new.count ≤ length self.new.calls.now }
        ensures lent { StillLent self.old.calls self.new.calls }
    {
        if self.count < self.calls.len() {
            self.calls[self.count] = call;
            self.count += 1;
        } else {
            self.count = self.calls.len();
        }
    }

    fn put_reports(&mut self, cores: u32)
        ensures within { self.old.count ≤ length self.old.calls.now → self.new.count ≤ length self.new.calls.now }
        ensures lent { StillLent self.old.calls self.new.calls }
    {
        for core in 0..cores {
            self.put(Call::Retired(CoreId(core)));
        }
    }

    fn put_spawns(&mut self, spawns: u32)
        ensures within { self.old.count ≤ length self.old.calls.now → self.new.count ≤ length self.new.calls.now }
        ensures lent { StillLent self.old.calls self.new.calls }
    {
        for _ in 0..spawns {
            self.put(Call::Spawn(Some(Tid(0)), 0));
        }
    }

    // Up to the end of the first tick, in which thread 0 yields.
    fn put_start(&mut self, board: Board)
        ensures within { self.new.count ≤ length self.new.calls.now }
        ensures lent { StillLent self.old.calls self.new.calls }
    {
        self.put_spawns(board.spawns);
        self.put_reports(board.cores);
        self.put(Call::YieldNow(CoreId(0)));
        self.put(Call::EndTick);
    }

    // Ticks before each of which every core reports, 250 of them.
    fn put_ticks(&mut self, cores: u32)
        ensures within { self.old.count ≤ length self.old.calls.now → self.new.count ≤ length self.new.calls.now }
        ensures lent { StillLent self.old.calls self.new.calls }
    {
        for _ in 0..250 {
            self.put_reports(cores);
            self.put(Call::EndTick);
        }
    }
}

// Tick end by tick end from the start on: how many ticks till thread 0 takes a core, and what it runs till it leaves.
fn follow(board: Board, calls: &[Call; CALLS], start: usize) -> Found {
    let step = board.cores as usize + 1;
    let mut ticks = 0;
    // what thread 0 had run when it took a core
    let mut taken = None;
    for done in (start..CALLS).step_by(step) {
        let seen = after(board, calls, done + step);
        match taken {
            Some(run) => {
                if seen.left {
                    let stay = seen.run.wrapping_sub(run);
                    return Found { ticks, stay };
                }
            }
            None => {
                ticks = ticks.wrapping_add(seen.ticked);
                taken = seen.taken.then_some(seen.run);
            }
        }
    }
    Found { ticks, stay: 0 }
}

// What the first `upto` calls leave.
fn after(board: Board, calls: &[Call; CALLS], upto: usize) -> Seen {
    let policy = SchedPolicy::RoundRobin;
    let config = SchedConfig {
        policy,
        quantum: board.quantum,
        switch_cost: board.cost,
    };
    let capacities = Capacities {
        threads: 256,
        events: 1,
        segments: 1,
    };
    let mut threads = [first_thread(0); 256];
    let mut queue = [0u32; 256];
    let mut prios = [0u32; 256];
    let mut log = [0u64; 2];
    let mut lanes = [0u64; 96];
    let mut m = LentMemory {
        threads: &mut threads,
        queue: &mut queue,
        prios: &mut prios,
        log: &mut log,
        lanes: &mut lanes,
    };
    let replayed = replay(config, board.cores, capacities, 0, calls, upto, &mut m);
    let before = place(&queue, replayed.sched.queued);
    seen_of(replayed, threads[0], before)
}

// The place of thread 0 in the queue, where it is there.
fn place(queue: &[u32; 256], queued: usize) -> Option<usize> {
    queue.iter().take(queued).position(|tid| *tid == 0)
}

fn seen_of(replayed: Replayed, first: ThreadInfo, before: Option<usize>) -> Seen {
    Seen {
        before,
        ticked: ticked(replayed.outcome),
        taken: takes(replayed.switches),
        left: leaves(replayed.switches),
        run: first.stats.run_ticks,
    }
}

fn ticked(outcome: Result<Outcome, Refusal>) -> u64 {
    u64::from(matches!(outcome, Ok(Outcome::Switched)))
}

// Whether a switch list has thread 0 coming in.
fn takes(list: SwitchList) -> bool {
    list.entries.iter().take(list.count).any(|s| comes(*s))
}

// Whether a switch list has thread 0 going out.
fn leaves(list: SwitchList) -> bool {
    list.entries.iter().take(list.count).any(|s| goes(*s))
}

fn comes(s: Switch) -> bool {
    s.inn.is_some_and(|t| t.0 == 0)
}

fn goes(s: Switch) -> bool {
    s.out.is_some_and(|o| o.tid.0 == 0)
}

fn print_number(text: &[u8], n: u64) {
    print(text);
    io::print_decimal(STDOUT_FILENO, n);
}

fn print(text: &[u8]) {
    io::write_all(STDOUT_FILENO, text);
}
