// A thread's times.
ghost use Rattle.std.specs.Prelude.{◌≡◌, ℕ, ◌-◌};
ghost use Rattle.model.specs.Questions.{passed, response_of, turnaround_of};
ghost use Rattle.model.specs.Reading.{option_tick_meant, thread_meant};

use model::{ThreadInfo, Tick};

// Ticks from arrival to another tick, 0 where that is earlier.
fn ticks_from(arrival: Tick, to: Option<Tick>) -> Option<Tick>
    ensures { option_tick_meant result ≡ passed arrival.0 (option_tick_meant to) }
{
    match to {
        None => None,
        Some(t) => {
            if t.0 < arrival.0 {
                return Some(Tick(0));
            }
            Some(Tick(t.0 - arrival.0))
        }
    }
}

// From arrival to first run.
pub fn response(t: ThreadInfo) -> Option<Tick>
    ensures { option_tick_meant result ≡ response_of (thread_meant t) }
{
    ticks_from(t.stats.arrival, t.stats.first_run)
}

// From arrival to finish.
pub fn turnaround(t: ThreadInfo) -> Option<Tick>
    ensures { option_tick_meant result ≡ turnaround_of (thread_meant t) }
{
    ticks_from(t.stats.arrival, t.stats.finish)
}
