// Parts: what is left to run, from the sums over the thread records.
ghost use Rattle.std.specs.Prelude.{◌≡◌, not, ◌&&◌, List};
ghost use Rattle.model.specs.Types.{ThreadRecord};
ghost use Rattle.model.specs.Questions.{any_thread, is_live, is_runnable};
ghost use Rattle.record_reads.specs.Totals.{totals_of};

use record_reads::totals::Totals;

// Some thread has not exited.
pub fn any_live(t: Totals) -> bool
    ensures { (rs : List ThreadRecord) → t ≡ totals_of rs → result ≡ any_thread is_live rs }
{
    0 < t.live
}

// Some thread holds a core or waits for one.
pub fn any_runnable(t: Totals) -> bool
    ensures { (rs : List ThreadRecord) → t ≡ totals_of rs → result ≡ any_thread is_runnable rs }
{
    0 < t.runnable
}

// Threads are left, and none of them will ever run again.
pub fn only_blocked(t: Totals) -> bool
    ensures { (rs : List ThreadRecord) → t ≡ totals_of rs → result ≡ (any_thread is_live rs && not (any_thread is_runnable rs)) }
{
    if !any_live(t) {
        return false;
    }
    !any_runnable(t)
}
