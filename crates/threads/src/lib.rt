// The thread records, a lent slice in thread order. These few functions apply in place what `records` and the crates beside it have for
// one record, and read no field of a record themselves.
// Its public functions are parts for other crates: no host calls them.
#![tactic(auto)]

ghost use Rattle.std.specs.Prelude.{◌≡◌, ℕ, ◌+◌, ◌<◌, ◌≤◌, length, get_or};
ghost use Rattle.model.specs.Reading.{thread_meant};
ghost use Rattle.model.specs.Accounting.{charge_threads};
ghost use Rattle.model.specs.Phases;
ghost use Rattle.charges.specs.Charging.{cores_meant};
ghost use Rattle.record_moves.specs.Moves.{moves_in, moved_threads};
ghost use Rattle.record_reads.specs.Totals.{totals_of, TotalsFit};
ghost use Rattle.records.specs.Changes.{change_meant, Fits};
ghost use Rattle.threads.specs.Slice.{blank, threads_in, Front, AllChargeable, tid_at, MovesFit, WakeFit, Woken};

use charges::charge::{CoreThreads, charge};
use model::{CoreState, ThreadInfo, Tick, Tid};
use record_moves::moves;
use record_reads::read;
use record_reads::totals::{Totals, totaled};
use records::change::{self, Change};

// A copy of record i.
pub fn record_at(threads: &[ThreadInfo], i: usize) -> ThreadInfo
    requires { i < length threads.now }
    ensures { result ≡ get_or threads.now i blank }
{
    threads[i]
}

// Record i becomes what the change makes of it.
pub fn update(threads: &mut [ThreadInfo], i: usize, c: Change)
    requires { (i < length threads.old) × Fits c (thread_meant (get_or threads.old i blank)) }
    ensures { (n : ℕ) → i < n → Front n (Phases.update i (change_meant c) (threads_in threads.old n)) threads.old threads.new }
{
    threads[i] = change::changed(threads[i], c);
}

// Charges one tick to the first n threads, each by what the cores do and by its own state.
pub fn charge_all(threads: &mut [ThreadInfo], n: usize, cores: [CoreState; 8])
    requires { (n ≤ length threads.old) × AllChargeable n threads.old }
    ensures { Front n (charge_threads (cores_meant cores) 0 (threads_in threads.old n)) threads.old threads.new }
{
    let on = CoreThreads::new(cores);
    for (i, t) in threads[..n].iter_mut().enumerate() {
        charge(t, i, on);
    }
}

// The moves in the front of a list of words are applied to the records, one after the other.
pub fn apply_moves(threads: &mut [ThreadInfo], moves: &[u64], count: usize, tick: Tick)
    requires { MovesFit threads.old moves.now count }
    ensures { (n : ℕ) → ((k : ℕ) → k < count → tid_at moves.now k < n) → Front n (moved_threads tick.0 (moves_in moves.now count) (threads_in threads.old n)) threads.old threads.new }
{
    for &word in &moves[..count] {
        let i = moves::move_tid(word);
        threads[i] = moves::applied(threads[i], word, tick);
    }
}

// The sums over the first n threads, for the summary and for the questions about all threads.
pub fn totals(threads: &[ThreadInfo], n: usize) -> Totals
    requires { (n ≤ length threads.now) × TotalsFit (totals_of (threads_in threads.now n)) }
    ensures { result ≡ totals_of (threads_in threads.now n) }
{
    let mut sums = Totals::default();
    for &t in &threads[..n] {
        sums = totaled(sums, t);
    }
    sums
}

// Each of the first n threads that waits for `on` is ready again, and goes to the back of the queue, in thread order: the queue's new length.
pub fn wake_waiters(
    threads: &mut [ThreadInfo],
    n: usize,
    on: Tid,
    queue: &mut [u32],
    len: usize,
) -> usize
    requires { WakeFit n on.0 threads.old queue.old len }
    ensures { Woken n on.0 threads.old threads.new len queue.old result queue.new }
{
    let mut to = len;
    for (i, t) in threads[..n].iter_mut().enumerate() {
        to = read::push_waiter(queue, to, *t, on, i);
        *t = change::woken(*t, on);
    }
    to
}
