// The report on a script in memory for a host that lends nothing but the buffer: the scheduler's memory stands in arrays of its own.
#![tactic(auto)]

ghost use Rattle.std.specs.Prelude.{◌≡◌};
ghost use Rattle.rcfg.specs.Reading.{laid_meant};
ghost use Rattle.script_report.specs.Reporting.{report_in};

use records::change::first_thread;
use settings::Refusal;
use state::memory::LentMemory;

// The report on a whole script, which asks nothing: the arrays have room for T 256, E 512 and S 256.
pub fn report(script: &[u8], out: &mut [u8]) -> Result<usize, Refusal>
    ensures { laid_meant result out.new ≡ report_in script.now out.old }
{
    let mut threads = [first_thread(0); 256];
    let mut queue = [0u32; 256];
    let mut prios = [0u32; 256];
    let mut log = [0u64; 1024];
    let mut lanes = [0u64; 4176];
    let mut m = LentMemory {
        threads: &mut threads,
        queue: &mut queue,
        prios: &mut prios,
        log: &mut log,
        lanes: &mut lanes,
    };
    script_report::report(script, out, &mut m)
}
