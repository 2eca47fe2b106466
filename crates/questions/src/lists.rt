// The queue, the log and the timelines, entry by entry.
ghost use Rattle.std.specs.Prelude.{◌≡◌, length};
ghost use Rattle.std.proofs.Math.ListN.{get_elem?};
ghost use Rattle.model.specs.Questions.{timeline_of};
ghost use Rattle.state.specs.Asked.{Askable, Answers, nothing, the_queue, the_log, the_lanes};
ghost use Rattle.questions.specs.Reading.{option_event_meant, option_segment_meant};

use model::{CoreId, SchedEvent, Segment};
use rings::events::event_at;
use rings::timeline::segment_at;
use state::Sched;

// The ready queue, front first: a part of the lent words.
pub fn ready_queue(s: Sched, queue: &[u32]) -> &[u32]
    requires { Askable s (the_queue queue.now) }
    ensures { Answers s (the_queue queue.now) (λ d. result.now ≡ d.queue) }
{
    &queue[..s.queued]
}

// How many events the log holds.
pub fn event_count(s: Sched) -> usize
    ensures { Answers s nothing (λ d. result ≡ length d.accounts.log) }
{
    s.log.len as usize
}

// Event k of the log, oldest first.
pub fn event(s: Sched, log: &[u64], k: usize) -> Option<SchedEvent>
    requires { Askable s (the_log log.now) }
    ensures { Answers s (the_log log.now) (λ d. option_event_meant result ≡ get_elem? d.accounts.log k) }
{
    if s.log.len as usize <= k {
        return None;
    }
    let words = 2 * s.capacities.events;
    Some(event_at(&log[..words], s.log, k))
}

// How many segments a core's timeline holds.
pub fn segment_count(s: Sched, core: CoreId) -> usize
    requires { Askable s nothing }
    ensures { Answers s nothing (λ d. result ≡ length (timeline_of d core.0)) }
{
    let i = core.0 as usize;
    if s.cores <= i {
        return 0;
    }
    s.lanes[i].len as usize
}

// Segment k of a core's timeline, oldest first.
pub fn segment(s: Sched, lanes: &[u64], core: CoreId, k: usize) -> Option<Segment>
    requires { Askable s (the_lanes lanes.now) }
    ensures { Answers s (the_lanes lanes.now) (λ d. option_segment_meant result ≡ get_elem? (timeline_of d core.0) k) }
{
    let i = core.0 as usize;
    if s.cores <= i {
        return None;
    }
    let pos = s.lanes[i];
    if pos.len as usize <= k {
        return None;
    }
    let words = 2 * s.capacities.segments;
    let start = 80 + i * words;
    let end = start + words;
    Some(segment_at(&lanes[start..end], pos, k))
}
