// What a tick's moves and an exit's wakes write into the log.
ghost use Rattle.std.specs.Prelude.{◌≡◌, ◌-◌, ◌<◌, ◌≤◌, length, take, drop};
ghost use Rattle.queue.specs.Words.{moves_in, move_meant};
ghost use Rattle.rings.specs.Ring.{capacity, RingOK, Behind};
ghost use Rattle.rings.specs.Events.{events_in};
ghost use Rattle.accounts.specs.Log.{log_move, moved_log, log_wake, woken_log};

use model::{SchedEvent, SchedEventKind, Tick, Tid};
use queue::moves::{Move, move_at};
use rings::RingPos;
use rings::events::push_event;

// One move: a leave and a dispatch write one event each, a start none.
fn log_move(ring: &mut [u64], pos: RingPos, m: Move, tick: Tick) -> RingPos
    requires { RingOK ring.old pos × (tick.0 < 4294967296) }
    ensures ok { RingOK ring.new result }
    ensures events { events_in ring.new result ≡ log_move (capacity ring.old) tick.0 (move_meant m) (events_in ring.old pos) }
    ensures behind { Behind ring.old ring.new pos result }
{
    match m {
        Move::Leaves { tid, core, reason } => {
            let kind = SchedEventKind::Leave {
                core: core,
                reason: reason,
            };
            let event = SchedEvent {
                tick: tick,
                tid: tid,
                kind: kind,
            };
            push_event(ring, pos, event)
        }
        Move::Takes { tid, core } => {
            let kind = SchedEventKind::Dispatch { core: core };
            let event = SchedEvent {
                tick: tick,
                tid: tid,
                kind: kind,
            };
            push_event(ring, pos, event)
        }
        Move::Starts { tid: _ } => pos,
    }
}

// "Spawn, dispatch, leave, wake and priority change each write one event": the first `count` moves, in their order.
pub fn log_moves(ring: &mut [u64], pos: RingPos, moves: &[u64], count: usize, tick: Tick) -> RingPos
    requires { RingOK ring.old pos × (count ≤ length moves.now) × (tick.0 < 4294967296) }
    ensures ok { RingOK ring.new result }
    ensures events { events_in ring.new result ≡ moved_log (capacity ring.old) tick.0 (moves_in moves.now count) (events_in ring.old pos) }
    ensures behind { Behind ring.old ring.new pos result }
{
    let mut p = pos;
    for k in 0..count {
        let m = move_at(moves, k);
        p = log_move(ring, p, m, tick);
    }
    p
}

// One wake.
fn log_wake(ring: &mut [u64], pos: RingPos, tid: Tid, tick: Tick) -> RingPos
    requires { RingOK ring.old pos × (tick.0 < 4294967296) }
    ensures ok { RingOK ring.new result }
    ensures events { events_in ring.new result ≡ log_wake (capacity ring.old) tick.0 tid.0 (events_in ring.old pos) }
    ensures behind { Behind ring.old ring.new pos result }
{
    let event = SchedEvent {
        tick: tick,
        tid: tid,
        kind: SchedEventKind::Wake,
    };
    push_event(ring, pos, event)
}

// An exit "wakes its waiters in thread order to the back of the queue": one event for each of queue[from..to].
pub fn log_wakes(
    ring: &mut [u64],
    pos: RingPos,
    queue: &[u32],
    from: usize,
    to: usize,
    tick: Tick,
) -> RingPos
    requires { RingOK ring.old pos × (from ≤ to) × (to ≤ length queue.now) × (tick.0 < 4294967296) }
    ensures ok { RingOK ring.new result }
    ensures events { events_in ring.new result ≡ woken_log (capacity ring.old) tick.0 (take (to - from) (drop from queue.now)) (events_in ring.old pos) }
    ensures behind { Behind ring.old ring.new pos result }
{
    let mut p = pos;
    for waiter in &queue[from..to] {
        p = log_wake(ring, p, Tid(*waiter), tick);
    }
    p
}
