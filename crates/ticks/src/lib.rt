// One core's three counters, lent by &mut and charged with one tick.
// Its public functions are parts for other crates: no host calls them.
#![tactic(auto)]

ghost use Rattle.std.specs.Prelude.{◌≡◌};
ghost use Rattle.model.specs.Accounting.{charge_core};
ghost use Rattle.model.specs.Reading.{core_state_meant, core_ticks_meant};
ghost use Rattle.ticks.specs.Room.{TicksRoom};

use model::{CoreState, CoreTicks};

// Adds 1 to exactly one of the three counters, and writes nothing beside it.
#[tactic(auto, unfolding(model::specs::Accounting::charge_core))]
pub fn charge_core(ticks: &mut CoreTicks, state: CoreState)
    requires { TicksRoom ticks.old }
    ensures { core_ticks_meant ticks.new ≡ charge_core (core_state_meant state) (core_ticks_meant ticks.old) }
{
    match state {
        CoreState::Idle => ticks.idle += 1,
        CoreState::Switching { .. } => ticks.switching += 1,
        CoreState::Running { .. } => ticks.busy += 1,
    }
}
