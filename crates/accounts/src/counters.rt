// The cores' counters, and how many dispatches a list of moves has.
ghost use Rattle.std.specs.Prelude.{◌≡◌, ℕ, ◌<◌, ◌≤◌, length, get_or, ◌∷◌, []};
ghost use Rattle.model.specs.Accounting.{takes_in};
ghost use Rattle.queue.specs.Words.{moves_in, decode};
ghost use Rattle.ticks.specs.Room.{TicksRoom};
ghost use Rattle.state.specs.State.{no_ticks};
ghost use Rattle.accounts.specs.Charging.{TicksCharged};

use model::{CoreState, CoreTicks};
use ticks::charge_core;

// "Charging a tick changes one core's three counters and nothing beside them in the step that counts this core"
pub fn charge_ticks(ticks: [CoreTicks; 8], states: [CoreState; 8], n: usize) -> [CoreTicks; 8]
    requires { (n ≤ 8) × ((i : ℕ) → i < n → TicksRoom (get_or ticks i no_ticks)) }
    ensures { TicksCharged n states ticks result }
{
    let mut charged = ticks;
    for i in 0..n {
        charge_core(&mut charged[i], states[i]);
    }
    charged
}

// 1 if the word is a dispatch.
fn is_take(word: u64) -> u64
    ensures take { result ≡ takes_in (decode word ∷ []) }
    ensures few { result ≤ 1 }
{
    if word % 8 == 6 {
        return 1;
    }
    0
}

// How many of the moves are dispatches: each is a context switch.
#[tactic(auto, using(crate::proofs::Counting::takes_none, crate::proofs::Counting::takes_next, crate::proofs::Counting::takes_all))]
pub fn count_takes(moves: &[u64], count: usize) -> u64
    requires { count ≤ length moves.now }
    ensures takes { result ≡ takes_in (moves_in moves.now count) }
    ensures few { result ≤ count }
{
    let mut takes: u64 = 0;
    for word in &moves[..count] {
        takes += is_take(*word);
    }
    takes
}
