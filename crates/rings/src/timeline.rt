// A core's timeline: a ring of segments.
ghost use Rattle.std.specs.Prelude.{◌≡◌, ◌&&◌, ◌++◌, ◌∷◌, [], ℕ, ◌+◌, ◌*◌, ◌<◌, ◌≤◌, eqb, length};
ghost use Rattle.std.proofs.Math.Option.{some};
ghost use Rattle.std.proofs.Math.ListN.{get_elem?};
ghost use Rattle.model.specs.Accounting.{newest, grown, same_lane};
ghost use Rattle.model.specs.Reading.{lane_meant, segment_meant};
ghost use Rattle.rings.specs.Ring.{capacity, RingOK, Behind};
ghost use Rattle.rings.specs.Timeline.{lane_from, lane_code, lane_tid, segment_from, segments_in};

use crate::RingPos;
use crate::ring::{Entry, entry_at, push_entry};
use model::{Lane, Segment, Tick, Tid};

fn lane_code(lane: Lane) -> u64
    ensures { (result ≡ lane_code (lane_meant lane)) × (result < 3) }
{
    match lane {
        Lane::Idle => 0,
        Lane::Switch(_) => 1,
        Lane::Run(_) => 2,
    }
}

fn lane_tid(lane: Lane) -> u64
    ensures { (result ≡ lane_tid (lane_meant lane)) × (result < 4_294_967_296) }
{
    match lane {
        Lane::Idle => 0,
        Lane::Switch(tid) | Lane::Run(tid) => tid.0 as u64,
    }
}

fn lane_of(code: u64, tid: u32) -> Lane
    ensures { lane_meant result ≡ lane_from code tid }
{
    match code {
        0 => Lane::Idle,
        1 => Lane::Switch(Tid(tid)),
        _ => Lane::Run(Tid(tid)),
    }
}

#[tactic(auto, unfolding(model::specs::Accounting::same_lane))]
fn same_lane(a: Lane, b: Lane) -> bool
    ensures { result ≡ same_lane (lane_meant a) (lane_meant b) }
{
    a == b
}

// Whether the segment in two words has this lane and ends at this tick.
fn continues(first: u64, second: u64, tick: Tick, lane: Lane) -> bool
    ensures { result ≡ (same_lane (segment_from (record { first = first; second = second })).lane (lane_meant lane) && eqb (segment_from (record { first = first; second = second })).end tick.0) }
{
    first / 4_294_967_296 == tick.0
        && same_lane(lane_of(second % 4, (first % 4_294_967_296) as u32), lane)
}

// A new segment of one tick.
fn begin_segment(ring: &mut [u64], pos: RingPos, tick: Tick, lane: Lane) -> RingPos
    requires { RingOK ring.old pos × (tick.0 < 4_294_967_295) }
    ensures ok { RingOK ring.new result }
    ensures segments { segments_in ring.new result ≡ newest (capacity ring.old) (segments_in ring.old pos ++ (record { lane = lane_meant lane; start = tick.0; end = tick.0 + 1 } ∷ [])) }
    ensures behind { Behind ring.old ring.new pos result }
{
    let entry = Entry {
        first: (tick.0 + 1) * 4_294_967_296 + lane_tid(lane),
        second: tick.0 * 4 + lane_code(lane),
    };
    push_entry(ring, pos, entry)
}

// "A segment grows if lane and end match, otherwise a new one begins."
pub fn charge_lane(ring: &mut [u64], pos: RingPos, tick: Tick, lane: Lane) -> RingPos
    requires { RingOK ring.old pos × (tick.0 < 4_294_967_295) }
    ensures ok { RingOK ring.new result }
    ensures segments { segments_in ring.new result ≡ newest (capacity ring.old) (grown tick.0 (lane_meant lane) (segments_in ring.old pos)) }
    ensures behind { Behind ring.old ring.new pos result }
{
    let last = pos.last as usize;
    if pos.len == 0 {
        return begin_segment(ring, pos, tick, lane);
    }
    let first = ring[last * 2];
    let second = ring[last * 2 + 1];
    if !continues(first, second, tick, lane) {
        return begin_segment(ring, pos, tick, lane);
    }
    // The end stands in the upper half of the word, so this adds 1 to it.
    ring[last * 2] = first + 4_294_967_296;
    pos
}

// The segment k behind the oldest.
pub fn segment_at(ring: &[u64], pos: RingPos, k: usize) -> Segment
    requires { RingOK ring.now pos × (k < pos.len) }
    ensures { some (segment_meant result) ≡ get_elem? (segments_in ring.now pos) k }
{
    let Entry { first, second } = entry_at(ring, pos, k);
    Segment {
        lane: lane_of(second % 4, (first % 4_294_967_296) as u32),
        start: Tick(second / 4),
        end: Tick(first / 4_294_967_296),
    }
}
