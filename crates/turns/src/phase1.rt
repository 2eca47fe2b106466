// Phase 1 on one core: "A running core adds 1 to slice".
ghost use Rattle.std.specs.Prelude.{◌≡◌};
ghost use Rattle.model.specs.Phases.{sliced};
ghost use Rattle.model.specs.Reading.{core_state_meant};
ghost use Rattle.turns.specs.Turns.{Short};

use model::CoreState;

pub fn phase1_on(s: CoreState) -> CoreState
    requires { Short (core_state_meant s) }
    ensures { core_state_meant result ≡ sliced (core_state_meant s) }
{
    match s {
        CoreState::Idle | CoreState::Switching { .. } => s,
        CoreState::Running { tid, slice } => CoreState::Running {
            tid,
            slice: slice + 1,
        },
    }
}
