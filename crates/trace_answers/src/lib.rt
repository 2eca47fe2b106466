// What the calls answer, written as lines of a trace.
// The `pub` functions are parts of the program `trace`. No contract can say what is written to standard output; those here keep the positions within the
// buffers.
#![tactic(auto)]

ghost use Rattle.std.specs.Prelude.{◌≤◌};
ghost use Rattle.trace_text.specs.Streams.{Within, Grown};

use model::{JoinOutcome, Switch, SwitchOut};
use sched::{Applied, Outcome};
use settings::Refusal;
use switches::SwitchList;
use text::STDOUT_FILENO;
use trace_text::out::Stream;

fn put_refused(out: &mut Stream, refusal: Refusal)
    requires { Within out.old }
    ensures { Grown out.old out.new }
{
    out.text(b"refused");
    out.spaced(refusal.number());
}

fn put_joined(out: &mut Stream, outcome: JoinOutcome)
    requires { Within out.old }
    ensures { Grown out.old out.new }
{
    match outcome {
        JoinOutcome::Wait => out.text(b"joined wait"),
        JoinOutcome::Done => out.text(b"joined done"),
        JoinOutcome::Invalid => out.text(b"joined invalid"),
    }
}

fn put_out(out: &mut Stream, left: Option<SwitchOut>)
    requires { Within out.old }
    ensures { Grown out.old out.new }
{
    match left {
        None => out.text(b" - -"),
        Some(o) => {
            out.spaced(o.tid.0 as u64);
            out.text(b" ");
            out.reason(o.reason);
        }
    }
}

// An entry of the switch list, after a comma: core, thread out, reason, thread in.
fn put_switch(out: &mut Stream, e: Switch)
    requires { Within out.old }
    ensures { Grown out.old out.new }
{
    out.text(b", ");
    out.number(e.core.0 as u64);
    put_out(out, e.out);
    out.tid(e.inn);
}

fn put_switches(out: &mut Stream, list: SwitchList)
    requires { Within out.old × (list.count ≤ 8) }
    ensures { Grown out.old out.new }
{
    out.text(b"switched");
    for e in &list.entries[..list.count] {
        put_switch(out, *e);
    }
}

fn put_applied(out: &mut Stream, done: Applied)
    requires { Within out.old × (done.switches.count ≤ 8) }
    ensures { Grown out.old out.new }
{
    match done.outcome {
        Err(k) => put_refused(out, k),
        Ok(Outcome::Taken) => out.text(b"ok"),
        Ok(Outcome::Spawned(tid)) => {
            out.text(b"spawned");
            out.spaced(tid.0 as u64);
        }
        Ok(Outcome::Joined(o)) => put_joined(out, o),
        Ok(Outcome::Switched) => put_switches(out, done.switches),
    }
}

fn put_created(out: &mut Stream, answer: Result<(), Refusal>)
    requires { Within out.old }
    ensures { Grown out.old out.new }
{
    match answer {
        Ok(()) => out.text(b"ok"),
        Err(k) => put_refused(out, k),
    }
}

// What a call answered.
pub fn print_applied(done: Applied)
    requires { done.switches.count ≤ 8 }
{
    let mut buffer = [0u8; 256];
    let mut out = Stream {
        out: &mut buffer,
        at: 0,
    };
    put_applied(&mut out, done);
    out.text(b"\n");
    out.write_out();
}

// What `new` answered.
pub fn print_created(answer: Result<(), Refusal>) {
    let mut buffer = [0u8; 256];
    let mut out = Stream {
        out: &mut buffer,
        at: 0,
    };
    put_created(&mut out, answer);
    out.text(b"\n");
    out.write_out();
}

// What follows is the state.
pub fn print_shown() {
    io::write_all(STDOUT_FILENO, b"shown\n");
}

pub fn print_bad() {
    io::write_all(STDOUT_FILENO, b"bad\n");
}
