// The report program: a script on standard input, the report on standard output. Both go through in blocks, so that memory is bounded.
#![tactic(auto)]

ghost use Rattle.state.specs.Memory.{held};
ghost use Rattle.report.specs.Running.{Runnable, Finished};

use feed::{advance, finish};
use feed_plan::Report;
use records::change::first_thread;
use report_io::first::first_line;
use report_io::printed::{pass, write_end};
use report_io::{MAX_TURNS, Upcoming, marked_report};
use state::memory::LentMemory;

fn main() {
    // The script's block, and behind it the report's.
    let mut blocks = [0; 131072];
    let mut threads = [first_thread(0); 256];
    let mut queue = [0; 256];
    let mut prios = [0; 256];
    let mut log = [0; 1024];
    let mut lanes = [0; 4176];
    let mut m = LentMemory {
        threads: &mut threads,
        queue: &mut queue,
        prios: &mut prios,
        log: &mut log,
        lanes: &mut lanes,
    };
    let r = feed_plan::start::start();
    let first = first_line(r, &mut blocks);
    run(r, first, &mut blocks, &mut m);
}

// A line of the script each turn, and at last what stands at the report's end.
fn run(first: Report, upcoming: Upcoming, blocks: &mut [u8], m: &mut LentMemory)
    requires { Runnable first upcoming (held m.old) blocks.old }
    ensures { Finished blocks.new (held m.new) }
{
    let mut r = first;
    let mut u = upcoming;
    // kept: lines taken together are as many turns at once, so the place counts them.
    while u.place.turn < MAX_TURNS {
        let next = advance(r, u.line, m);
        u = pass(u, next, blocks);
        r = marked_report(next, u);
    }
    let threads = &mut *m.threads;
    let n = finish(r, blocks, threads);
    write_end(u, blocks, n);
}
