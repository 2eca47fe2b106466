// A trace's script: its lines read from standard input, and what each says.
// The `pub` functions are parts of the program `trace`. Which bytes are read no contract can say; those here say what they mean.
#![tactic(auto)]

pub mod lines;

use sched::Call;
use settings::SchedConfig;
use state::Capacities;

// What `new` is asked for.
#[derive(Clone, Copy)]
pub struct Setup {
    pub config: SchedConfig,
    pub cores: u32,
    pub capacities: Capacities,
    pub entry_pc: u32,
}

// One line of a script.
#[derive(Clone, Copy)]
pub enum Line {
    New(Setup),
    Call(Call),
    Show,
}
