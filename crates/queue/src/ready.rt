// The ready queue stands in the front of a lent slice: words[..len], its front first.
ghost use Rattle.std.specs.Prelude.{◌≡◌, ◌++◌, ◌∷◌, [], ◌+◌, ◌-◌, ◌<◌, ◌≤◌, length, take, get_or};
ghost use Rattle.queue.specs.Words.{Behind, StillLent};
ghost use Rattle.queue.specs.Ready.{remove_at, waiting, Chosen, named};

use model::Tid;

#[derive(Drop)]
pub struct ReadyQueue<'a> {
    pub words: &'a mut [u32],
    pub len: usize,
}

impl ReadyQueue<'_> {
    pub fn waiting(&self) -> &[u32]
        requires { self.now.len ≤ length self.now.words.now }
        ensures { result.now ≡ waiting self.now }
    {
        &self.words[..self.len]
    }

    // The thread at k leaves the queue, and is handed out.
    pub fn take_at(&mut self, k: usize) -> Tid
        requires { (k < self.old.len) × (self.old.len ≤ length self.old.words.now) }
        ensures thread { result.0 ≡ get_or (waiting self.old) k 0 }
        ensures left { waiting self.new ≡ remove_at k (waiting self.old) }
        ensures len { self.new.len + 1 ≡ self.old.len }
        ensures behind { Behind self.new.len self.old.words.now self.new.words.now }
        ensures lent { StillLent self.old.words self.new.words }
    {
        let tid = Tid(self.words[k]);
        remove_at(self.words, self.len, k);
        self.len -= 1;
        tid
    }

    // A thread joins the back of the queue.
    pub fn push_back(&mut self, tid: Tid)
        requires { self.old.len < length self.old.words.now }
        ensures back { waiting self.new ≡ waiting self.old ++ (tid.0 ∷ []) }
        ensures len { self.new.len ≡ self.old.len + 1 }
        ensures behind { Behind self.new.len self.old.words.now self.new.words.now }
        ensures lent { StillLent self.old.words self.new.words }
    {
        self.words[self.len] = tid.0;
        self.len += 1;
    }
}

// The entry at k leaves the first n; the entries behind it move up.
#[tactic(auto, using(crate::proofs::Slide::slid_front, crate::proofs::Slide::slid_behind))]
pub fn remove_at(queue: &mut [u32], n: usize, k: usize)
    requires { (k < n) × (n ≤ length queue.old) }
    ensures left { take (n - 1) queue.new ≡ remove_at k (take n queue.old) }
    ensures behind { Behind (n - 1) queue.old queue.new }
{
    queue.copy_within(k + 1..n, k);
}

// The place of a thread that waits.
pub fn position(waiting: &[u32], tid: Tid) -> Option<usize>
    ensures { Chosen (named tid.0 waiting.now) waiting.now result }
{
    waiting.iter().position(|&t| t == tid.0)
}
