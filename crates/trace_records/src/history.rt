// The log and the timelines as lines, and what follows them.
ghost use Rattle.std.specs.Prelude.{List, ℕ, ◌≤◌, ◌<◌};
ghost use Rattle.model.specs.declared.ThreadInfo.{ThreadInfo};
ghost use Rattle.state.specs.Asked.{Askable, the_log, the_lanes};
ghost use Rattle.state.specs.Memory.{memory};
ghost use Rattle.state.specs.State.{Valid};
ghost use Rattle.trace_text.specs.Streams.{Within, Grown};

use model::{CoreId, Lane, SchedEvent, SchedEventKind, Segment};
use questions::lists::{event, segment};
use state::Sched;
use trace_state::cores::{Left, put_asked};
use trace_text::out::Stream;

fn put_kind(out: &mut Stream, kind: SchedEventKind)
    requires { Within out.old }
    ensures { Grown out.old out.new }
{
    match kind {
        SchedEventKind::Spawn { parent } => {
            out.text(b" spawn");
            out.tid(parent);
        }
        SchedEventKind::Dispatch { core } => {
            out.text(b" dispatch");
            out.spaced(core.0 as u64);
        }
        SchedEventKind::Leave { core, reason } => {
            out.text(b" leave");
            out.spaced(core.0 as u64);
            out.text(b" ");
            out.reason(reason);
        }
        SchedEventKind::Wake => out.text(b" wake"),
        SchedEventKind::Priority { priority } => {
            out.text(b" priority");
            out.spaced(priority as u64);
        }
    }
}

fn put_event(out: &mut Stream, e: SchedEvent)
    requires { Within out.old }
    ensures { Grown out.old out.new }
{
    out.text(b"event");
    out.spaced(e.tick.0);
    out.spaced(e.tid.0 as u64);
    put_kind(out, e.kind);
    out.text(b"\n");
}

fn put_events(out: &mut Stream, s: Sched, log: &[u64])
    requires { Within out.old × Askable s (the_log log.now) }
    ensures { Grown out.old out.new }
{
    let pos = s.log;
    for k in 0..(pos.len as usize).min(512) {
        if let Some(e) = event(s, log, k) {
            put_event(out, e);
        }
    }
}

fn put_lane(out: &mut Stream, lane: Lane)
    requires { Within out.old }
    ensures { Grown out.old out.new }
{
    match lane {
        Lane::Idle => out.text(b" idle"),
        Lane::Switch(tid) => {
            out.text(b" switch");
            out.spaced(tid.0 as u64);
        }
        Lane::Run(tid) => {
            out.text(b" run");
            out.spaced(tid.0 as u64);
        }
    }
}

fn put_segment(out: &mut Stream, core: CoreId, g: Segment)
    requires { Within out.old }
    ensures { Grown out.old out.new }
{
    out.text(b"segment");
    out.spaced(core.0 as u64);
    put_lane(out, g.lane);
    out.spaced(g.start.0);
    out.spaced(g.end.0);
    out.text(b"\n");
}

// One core's timeline.
fn put_timeline(out: &mut Stream, s: Sched, lanes: &[u64], i: usize)
    requires { Within out.old × (i < s.cores) × Askable s (the_lanes lanes.now) }
    ensures { Grown out.old out.new }
{
    let pos = s.lanes[i];
    let core = CoreId(i as u32);
    for k in 0..(pos.len as usize).min(4096) {
        if let Some(g) = segment(s, lanes, core, k) {
            put_segment(out, core, g);
        }
    }
}

fn put_timelines(out: &mut Stream, s: Sched, lanes: &[u64])
    requires { Within out.old × Askable s (the_lanes lanes.now) }
    ensures { Grown out.old out.new }
{
    for i in 0..s.cores {
        put_timeline(out, s, lanes, i);
    }
}

// Log, timelines and questions.
pub fn print_rest(s: Sched, left: Left, log: &[u64], lanes: &[u64])
    requires { (s.cores ≤ 8) × ((ts : List ThreadInfo) × (qs : List ℕ) × (ps : List ℕ) × Valid s
        (memory ts qs ps log.now lanes.now)) }
{
    let mut buffer = io::buffer();
    let mut out = Stream {
        out: &mut buffer,
        at: 0,
    };
    put_events(&mut out, s, log);
    put_timelines(&mut out, s, lanes);
    put_asked(&mut out, s, left);
    out.write_out();
}
