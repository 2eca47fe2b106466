// The log: a ring of events.
ghost use Rattle.std.specs.Prelude.{◌≡◌, ◌++◌, ◌∷◌, [], ◌<◌};
ghost use Rattle.std.proofs.Math.Option.{some};
ghost use Rattle.std.proofs.Math.ListN.{get_elem?};
ghost use Rattle.model.specs.Accounting.{newest};
ghost use Rattle.model.specs.Reading.{event_meant, event_kind_meant};
ghost use Rattle.rings.specs.Ring.{capacity, RingOK, Behind};
ghost use Rattle.rings.specs.Events.{kind_from, kind_in, events_in};

use crate::RingPos;
use crate::ring::{Entry, entry_at, push_entry};
use model::{CoreId, LeaveReason, SchedEvent, SchedEventKind, Tick, Tid};

fn kind_word(kind: SchedEventKind) -> u64
    ensures { kind_in result ≡ event_kind_meant kind }
{
    match kind {
        SchedEventKind::Spawn { parent: None } => 0,
        SchedEventKind::Spawn { parent: Some(tid) } => tid.0 as u64 * 16 + 1,
        SchedEventKind::Dispatch { core } => core.0 as u64 * 16 + 2,
        SchedEventKind::Wake => 3,
        SchedEventKind::Priority { priority } => priority as u64 * 16 + 4,
        SchedEventKind::Leave { core, reason } => core.0 as u64 * 16 + (5 + reason.code()),
    }
}

fn kind_of(code: u64, value: u32) -> SchedEventKind
    ensures { event_kind_meant result ≡ kind_from code value }
{
    match code {
        0 => SchedEventKind::Spawn { parent: None },
        1 => SchedEventKind::Spawn {
            parent: Some(Tid(value)),
        },
        2 => SchedEventKind::Dispatch {
            core: CoreId(value),
        },
        3 => SchedEventKind::Wake,
        4 => SchedEventKind::Priority { priority: value },
        _ => SchedEventKind::Leave {
            core: CoreId(value),
            reason: LeaveReason::try_from(code - 5).unwrap_or(LeaveReason::Forced),
        },
    }
}

// "Spawn, dispatch, leave, wake and priority change each write one event"; the newest stay.
pub fn push_event(ring: &mut [u64], pos: RingPos, event: SchedEvent) -> RingPos
    requires { RingOK ring.old pos × (event.tick.0 < 4_294_967_296) }
    ensures ok { RingOK ring.new result }
    ensures events { events_in ring.new result ≡ newest (capacity ring.old) (events_in ring.old pos ++ (event_meant event ∷ [])) }
    ensures behind { Behind ring.old ring.new pos result }
{
    let entry = Entry {
        first: event.tick.0 * 4_294_967_296 + event.tid.0 as u64,
        second: kind_word(event.kind),
    };
    push_entry(ring, pos, entry)
}

// The event k behind the oldest.
pub fn event_at(ring: &[u64], pos: RingPos, k: usize) -> SchedEvent
    requires { RingOK ring.now pos × (k < pos.len) }
    ensures { some (event_meant result) ≡ get_elem? (events_in ring.now pos) k }
{
    let Entry { first, second } = entry_at(ring, pos, k);
    SchedEvent {
        tick: Tick(first / 4_294_967_296),
        tid: Tid((first % 4_294_967_296) as u32),
        kind: kind_of(second % 16, (second / 16 % 4_294_967_296) as u32),
    }
}
