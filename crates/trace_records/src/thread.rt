// One thread's record as a line.
ghost use Rattle.trace_text.specs.Streams.{Within, Grown};

use model::{LastLeave, ThreadInfo, ThreadState, ThreadStats};
use questions::times::{response, turnaround};
use trace_text::out::Stream;

fn put_life(out: &mut Stream, state: ThreadState)
    requires { Within out.old }
    ensures { Grown out.old out.new }
{
    match state {
        ThreadState::Ready => out.text(b" ready"),
        ThreadState::Running(core) => {
            out.text(b" running");
            out.spaced(core.0 as u64);
        }
        ThreadState::Blocked(on) => {
            out.text(b" blocked");
            out.spaced(on.0 as u64);
        }
        ThreadState::Exited => out.text(b" exited"),
    }
}

fn put_leave(out: &mut Stream, left: Option<LastLeave>)
    requires { Within out.old }
    ensures { Grown out.old out.new }
{
    match left {
        None => out.text(b" -"),
        Some(l) => {
            out.spaced(l.tick.0);
            out.spaced(l.core.0 as u64);
            out.text(b" ");
            out.reason(l.reason);
        }
    }
}

fn put_identity(out: &mut Stream, t: ThreadInfo)
    requires { Within out.old }
    ensures { Grown out.old out.new }
{
    out.text(b"thread");
    out.spaced(t.tid.0 as u64);
    out.tid(t.parent);
}

fn put_standing(out: &mut Stream, t: ThreadInfo)
    requires { Within out.old }
    ensures { Grown out.old out.new }
{
    out.spaced(t.entry_pc as u64);
    out.spaced(t.priority as u64);
    put_life(out, t.state);
}

// What it did last.
fn put_last(out: &mut Stream, t: ThreadInfo)
    requires { Within out.old }
    ensures { Grown out.old out.new }
{
    out.text(b" last");
    out.core(t.last_core);
    out.tick(t.last_dispatch);
    put_leave(out, t.last_leave);
}

fn put_times(out: &mut Stream, stats: ThreadStats)
    requires { Within out.old }
    ensures { Grown out.old out.new }
{
    out.text(b" times");
    out.spaced(stats.arrival.0);
    out.tick(stats.first_run);
    out.tick(stats.finish);
}

fn put_counts(out: &mut Stream, stats: ThreadStats)
    requires { Within out.old }
    ensures { Grown out.old out.new }
{
    out.text(b" counts");
    out.spaced(stats.run_ticks);
    out.spaced(stats.ready_ticks);
    out.spaced(stats.blocked_ticks);
    out.spaced(stats.dispatches);
    out.spaced(stats.preemptions);
    out.spaced(stats.yields);
}

// From arrival to first run and to finish.
fn put_asked(out: &mut Stream, t: ThreadInfo)
    requires { Within out.old }
    ensures { Grown out.old out.new }
{
    out.text(b" asked");
    out.tick(response(t));
    out.tick(turnaround(t));
    out.text(b"\n");
}

fn put_thread(out: &mut Stream, t: ThreadInfo)
    requires { Within out.old }
    ensures { Grown out.old out.new }
{
    put_identity(out, t);
    put_standing(out, t);
    put_last(out, t);
    put_times(out, t.stats);
    put_counts(out, t.stats);
    put_asked(out, t);
}

pub fn print_thread(t: ThreadInfo) {
    let mut buffer = [0u8; 512];
    let mut out = Stream {
        out: &mut buffer,
        at: 0,
    };
    put_thread(&mut out, t);
    out.write_out();
}
