// The state without thread records and rings: settings, queue, cores, and the questions about them.
ghost use Rattle.std.specs.Prelude.{◌<◌};
ghost use Rattle.state.specs.Asked.{Askable, Answers, nothing, the_queue};
ghost use Rattle.trace_text.specs.Streams.{Within, Written, Grown};
ghost use Rattle.trace_state.specs.Asked.{left_text, running_text, places_text, asked_text};

use model::{CoreId, CoreState, CoreTicks, Tid};
use questions::cores::{core_of, core_state, core_ticks, running_on, thread_on};
use questions::lists::ready_queue;
use questions::next_tid;
use settings::SchedConfig;
use state::Sched;
use trace_text::out::Stream;

fn put_clock(out: &mut Stream, s: Sched)
    requires { Within out.old }
    ensures { Grown out.old out.new }
{
    let tick = s.now;
    out.text(b"state");
    out.spaced(tick.0);
    out.text(b" ");
    out.bit(s.closed);
    out.spaced(s.context_switches);
}

fn put_config(out: &mut Stream, config: SchedConfig)
    requires { Within out.old }
    ensures { Grown out.old out.new }
{
    out.policy(config.policy);
    out.spaced(config.quantum as u64);
    out.spaced(config.switch_cost as u64);
    out.text(b"\n");
}

fn put_queue(out: &mut Stream, queue: &[u32])
    requires { Within out.old }
    ensures { Grown out.old out.new }
{
    out.text(b"queue");
    for tid in queue {
        out.spaced(*tid as u64);
    }
    out.text(b"\n");
}

fn put_state(out: &mut Stream, state: CoreState)
    requires { Within out.old }
    ensures { Grown out.old out.new }
{
    match state {
        CoreState::Idle => out.text(b" idle"),
        CoreState::Switching { tid, left } => {
            out.text(b" switching");
            out.spaced(tid.0 as u64);
            out.spaced(left as u64);
        }
        CoreState::Running { tid, slice } => {
            out.text(b" running");
            out.spaced(tid.0 as u64);
            out.spaced(slice as u64);
        }
    }
}

fn put_marks(out: &mut Stream, s: Sched, i: usize)
    requires { Within out.old × (i < 8) }
    ensures { Grown out.old out.new }
{
    out.text(b" marks ");
    out.bit(s.marks.exits[i]);
    out.bit(s.marks.blocks[i]);
    out.bit(s.marks.yields[i]);
    out.bit(s.marks.progressed[i]);
}

fn put_ticks(out: &mut Stream, ticks: CoreTicks)
    requires { Within out.old }
    ensures { Grown out.old out.new }
{
    out.text(b" ticks");
    out.spaced(ticks.busy as u64);
    out.spaced(ticks.switching as u64);
    out.spaced(ticks.idle as u64);
}

fn put_one_core(out: &mut Stream, s: Sched, i: usize)
    requires { Within out.old × (i < s.cores) × Askable s nothing }
    ensures { Grown out.old out.new }
{
    let core = CoreId(i as u32);
    out.text(b"core");
    out.spaced(i as u64);
    put_state(out, core_state(s, core));
    put_marks(out, s, i);
    if let Some(ticks) = core_ticks(s, core) {
        put_ticks(out, ticks);
    }
    out.text(b"\n");
}

fn put_cores(out: &mut Stream, s: Sched)
    requires { Within out.old × Askable s nothing }
    ensures { Grown out.old out.new }
{
    for i in 0..s.cores {
        put_one_core(out, s, i);
    }
}

// Settings, queue and cores.
pub fn print_front(s: Sched, queue: &[u32])
    requires { Askable s (the_queue queue.now) }
{
    let mut buffer = io::buffer();
    let mut out = Stream {
        out: &mut buffer,
        at: 0,
    };
    put_clock(&mut out, s);
    put_config(&mut out, s.config);
    put_queue(&mut out, ready_queue(s, queue));
    put_cores(&mut out, s);
    out.write_out();
}

// What runs on each core, and on one more, which there is not.
fn put_running(out: &mut Stream, s: Sched)
    requires { Askable s nothing × Within out.old }
    ensures said { Answers s nothing (λ d. Written out.old (running_text d) out.new) }
    ensures grown { Grown out.old out.new }
{
    for i in 0..s.cores + 1 {
        let core = CoreId(i as u32);
        out.tid(running_on(s, core));
        out.tid(thread_on(s, core));
    }
}

// The core of each thread, and of one more, which there is not.
fn put_places(out: &mut Stream, s: Sched)
    requires { Askable s nothing × Within out.old }
    ensures said { Answers s nothing (λ d. Written out.old (places_text d) out.new) }
    ensures grown { Grown out.old out.new }
{
    for i in 0..s.threads + 1 {
        out.core(core_of(s, Tid(i as u32)));
    }
}

// Whether threads are left, whether one of them can run, and whether they are deadlocked.
#[derive(Clone, Copy)]
pub struct Left {
    pub live: bool,
    pub runnable: bool,
    pub deadlocked: bool,
}

fn put_left(out: &mut Stream, left: Left)
    requires { Within out.old }
    ensures { Written out.old (left_text left.live left.runnable left.deadlocked) out.new }
{
    out.text(b" ");
    out.bit(left.live);
    out.bit(left.runnable);
    out.bit(left.deadlocked);
}

// The questions that are no field of the state. What is left to run is asked of the thread records, which are not here.
pub fn put_asked(out: &mut Stream, s: Sched, left: Left)
    requires { Askable s nothing × Within out.old }
    ensures said { Answers s nothing (λ d. Written out.old (asked_text d left.live left.runnable left.deadlocked) out.new) }
    ensures grown { Grown out.old out.new }
{
    let next = next_tid(s);
    out.text(b"asked");
    out.spaced(next.0 as u64);
    put_left(out, left);
    put_running(out, s);
    put_places(out, s);
    out.text(b"\n");
}

fn put_figures(out: &mut Stream, waiting: u64, response: u64, turnaround: u64, utilization: u64)
    requires { Within out.old }
    ensures { Grown out.old out.new }
{
    out.text(b"figures");
    out.spaced(waiting);
    out.spaced(response);
    out.spaced(turnaround);
    out.spaced(utilization);
    out.text(b"\n");
}

// The bit patterns of the summary's figures.
pub fn print_figures(waiting: u64, response: u64, turnaround: u64, utilization: u64) {
    let mut buffer = [0u8; 256];
    let mut out = Stream {
        out: &mut buffer,
        at: 0,
    };
    put_figures(&mut out, waiting, response, turnaround, utilization);
    out.write_out();
}
