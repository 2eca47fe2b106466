// The lines of a script up to `cores=` read by the program.
// Its public functions are parts for other crates: no host calls them.
#![tactic(auto)]

use rcfg::Head;
use settings::SchedConfig;

pub mod reading;

// What a line up to `cores=` makes of the lines before it.
#[derive(Clone, Copy, PartialEq, Eq, Debug)]
pub enum Heading {
    More(Head),
    Done { config: SchedConfig, cores: u32 },
}
