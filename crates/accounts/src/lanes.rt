// The cores' timelines: behind the room for the moves, one ring of segments after the other.
ghost use Rattle.std.specs.Prelude.{ℕ, ◌+◌, ◌<◌, ◌≤◌, length, get_or};
ghost use Rattle.model.specs.Accounting.{lane_of};
ghost use Rattle.model.specs.Reading.{core_state_meant};
ghost use Rattle.rings.specs.Ring.{capacity, RingOK};
ghost use Rattle.state.specs.State.{no_pos, lane_start, lane_words};
ghost use Rattle.accounts.specs.Charging.{part, LaneCharged, Outside, LanesCharged};

use model::{CoreState, Tick};
use rings::RingPos;
use rings::timeline::charge_lane;

// The words before the timelines, for the moves of a tick end.
const MOVE_ROOM: usize = 80;

// One core's timeline, in the words from `start` up to `end`.
pub fn charge_part(
    lanes: &mut [u64],
    start: usize,
    end: usize,
    pos: RingPos,
    tick: Tick,
    state: CoreState,
) -> RingPos
    requires { (start ≤ end) × (end ≤ length lanes.old) × RingOK (part start end lanes.old) pos × (tick.0 < 4294967295) }
    ensures charged { LaneCharged (capacity (part start end lanes.old)) tick.0 (lane_of (core_state_meant state)) (part start end lanes.old) (part start end lanes.new) pos result }
    ensures outside { Outside start end lanes.old lanes.new }
{
    charge_lane(&mut lanes[start..end], pos, tick, state.lane())
}

// "A segment grows if lane and end match, otherwise a new one begins": each of the first n cores' timelines, charged with this tick.
pub fn charge_lanes(
    lanes: &mut [u64],
    pos: [RingPos; 8],
    capacity: usize,
    states: [CoreState; 8],
    n: usize,
    tick: Tick,
) -> [RingPos; 8]
    requires { (n ≤ 8) × (capacity ≤ 4096) × (lane_start capacity n ≤ length lanes.old) × (tick.0 < 4294967295) × ((i : ℕ) → i < n → RingOK (lane_words capacity i lanes.old) (get_or pos i no_pos)) }
    ensures { LanesCharged capacity n tick.0 states lanes.old lanes.new pos result }
{
    let words = 2 * capacity;
    let mut charged = pos;
    let mut start = MOVE_ROOM;
    for i in 0..n {
        let p = charged[i];
        let end = start + words;
        let q = charge_part(lanes, start, end, p, tick, states[i]);
        start = end;
        // A segment that grows leaves the ring's position as it was, and a store that is not needed costs time.
        if p != q {
            charged[i] = q;
        }
    }
    charged
}
