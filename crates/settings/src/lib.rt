// The settings: policies, their words, the three settings with their limits, and the numbers of all refusals.
// What a policy and the settings say of themselves is for hosts; `policy_of` and `is_beyond` are parts.
#![tactic(auto)]

ghost use Rattle.std.specs.Prelude.{◌≡◌};
ghost use Rattle.settings.specs.Settings.{defaults};
ghost use Rattle.settings.specs.Reading.{settings_meant, refusal_number};

pub mod numbers;
pub mod policy;

// How the threads share the cores.
#[derive(Clone, Copy, PartialEq, Eq, Debug)]
pub enum SchedPolicy {
    Off,
    Fifo,
    RoundRobin,
    Priority,
}

// The scheduler's settings.
#[derive(Clone, Copy, PartialEq, Eq, Debug)]
pub struct SchedConfig {
    pub policy: SchedPolicy,
    // Ticks a thread runs before round robin hands its core to the next.
    pub quantum: u32,
    // Ticks a core spends switching from one thread to another.
    pub switch_cost: u32,
}

impl SchedConfig {
    pub const DEFAULT_QUANTUM: u32 = 50;

    pub const DEFAULT_SWITCH_COST: u32 = 0;

    pub const MAX_QUANTUM: u32 = 1_000_000;

    pub const MAX_SWITCH_COST: u32 = 10_000;
}

impl Default for SchedConfig {
    fn default() -> SchedConfig
        ensures { settings_meant result ≡ defaults }
    {
        SchedConfig {
            policy: SchedPolicy::Off,
            quantum: SchedConfig::DEFAULT_QUANTUM,
            switch_cost: SchedConfig::DEFAULT_SWITCH_COST,
        }
    }
}

// Every refusal with the paper's number; specs/Reading.antt has them too.
#[derive(Clone, Copy, PartialEq, Eq, Debug)]
pub enum Refusal {
    SettingRange = 1,
    CoreCount = 2,
    Capacity = 3,
    NoCore = 4,
    NoThread = 5,
    BadLine = 6,
    BadPolicy = 7,
    BadNumber = 8,
    Closed = 11,
    Leaving = 12,
    NotRunning = 13,
    StillSwitching = 14,
    NotReady = 15,
    NobodyWaits = 16,
    ThreadsFull = 17,
    ClockLimit = 18,
    CounterLimit = 19,
}

impl Refusal {
    // The paper's number.
    pub fn number(self) -> u64
        ensures { result ≡ refusal_number self }
    {
        self as u64
    }
}
