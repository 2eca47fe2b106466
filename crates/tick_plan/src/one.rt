// A tick end on a board of one core: its state alone is looked at, so that no array of states is made.
ghost use Rattle.std.specs.Prelude.{◌≡◌, not, ◌&&◌, eqb};
ghost use Rattle.settings.specs.Reading.{policy_meant};
ghost use Rattle.quiet.specs.Quiet.{is_priority};
ghost use Rattle.tick_plan.specs.Plan.{ChargeFits, ChargedOf};

use crate::Charged;
use accounts::lanes::charge_part;
use settings::SchedPolicy;
use state::{Sched, state_in};
use ticks::charge_core;

// The core's counters and timeline.
pub fn charge_one(s: Sched, lanes: &mut [u64]) -> Charged
    requires { ChargeFits s lanes.old × (s.cores ≡ 1) }
    ensures { ChargedOf s lanes.old lanes.new result }
{
    let state = state_in(s.states.c0);
    let mut ticks = s.ticks;
    charge_core(&mut ticks[0], state);
    let mut pos = s.lanes;
    let end = 80 + 2 * s.capacities.segments;
    pos[0] = charge_part(lanes, 80, end, pos[0], s.now, state);
    Charged { ticks, lanes: pos }
}

// Whether the board has one core and is not under priority, whose phase 6 is left to `decide`.
pub fn is_single(n: usize, policy: SchedPolicy) -> bool
    ensures { result ≡ (eqb n 1 && not (is_priority (policy_meant policy))) }
{
    n == 1 && policy != SchedPolicy::Priority
}
