// What is asked of a core's state.
ghost use Rattle.std.specs.Prelude.{◌≡◌};
ghost use Rattle.model.specs.Accounting.{lane_of};
ghost use Rattle.model.specs.Calls.{is_idle, is_running, is_switching};
ghost use Rattle.model.specs.Phases.{holder};
ghost use Rattle.model.specs.Reading.{core_state_meant, lane_meant, option_tid_meant};

use crate::{CoreState, Lane, Tid};

impl CoreState {
    pub fn is_idle(self) -> bool
        ensures { result ≡ is_idle (core_state_meant self) }
    {
        matches!(&self, CoreState::Idle)
    }

    pub fn is_switching(self) -> bool
        ensures { result ≡ is_switching (core_state_meant self) }
    {
        matches!(&self, CoreState::Switching { .. })
    }

    pub fn is_running(self) -> bool
        ensures { result ≡ is_running (core_state_meant self) }
    {
        matches!(&self, CoreState::Running { .. })
    }

    // The thread that holds the core, running or switching in.
    pub fn tid(self) -> Option<Tid>
        ensures { option_tid_meant result ≡ holder (core_state_meant self) }
    {
        match self {
            CoreState::Idle => None,
            CoreState::Switching { tid, .. } | CoreState::Running { tid, .. } => Some(tid),
        }
    }

    // What a tick in this state adds to the core's timeline.
    pub fn lane(self) -> Lane
        ensures { lane_meant result ≡ lane_of (core_state_meant self) }
    {
        match self {
            CoreState::Idle => Lane::Idle,
            CoreState::Switching { tid, .. } => Lane::Switch(tid),
            CoreState::Running { tid, .. } => Lane::Run(tid),
        }
    }
}
