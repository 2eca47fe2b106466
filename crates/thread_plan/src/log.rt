// One event into the log.
ghost use Rattle.std.specs.Prelude.{◌*◌, ◌<◌, ◌≤◌, length};
ghost use Rattle.model.specs.Reading.{event_kind_meant};
ghost use Rattle.rings.specs.Ring.{RingOK};
ghost use Rattle.state.specs.State.{log_words};
ghost use Rattle.thread_plan.specs.Logging.{Logged};

use model::{SchedEvent, SchedEventKind, Tick, Tid};
use rings::RingPos;
use rings::events::push_event;

// The ring is the first 2 * events words of the log.
pub fn log_event(
    log: &mut [u64],
    events: usize,
    pos: RingPos,
    tick: Tick,
    tid: Tid,
    kind: SchedEventKind,
) -> RingPos
    requires { (events ≤ 512) × (2 * events ≤ length log.old) × RingOK (log_words events log.old) pos × (tick.0 < 4_294_967_296) }
    ensures { Logged events (record { tick = tick.0; tid = tid.0; kind = event_kind_meant kind }) log.old log.new pos result }
{
    let end = 2 * events;
    let event = SchedEvent { tick, tid, kind };
    push_event(&mut log[0..end], pos, event)
}
