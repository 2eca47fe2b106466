// Moves are words in the front of a lent slice: words[..count].
ghost use Rattle.std.specs.Prelude.{◌≡◌, ◌++◌, ◌∷◌, [], ◌+◌, ◌*◌, ◌<◌, length, get_or};
ghost use Rattle.queue.specs.Words.{decode, move_meant, OnBoard, made, Appended, StillLent};

use model::reasons::UnknownReason;
use model::{CoreId, LeaveReason, Tid};

#[derive(Clone, Copy)]
pub enum Move {
    Leaves {
        tid: Tid,
        core: CoreId,
        reason: LeaveReason,
    },
    Takes {
        tid: Tid,
        core: CoreId,
    },
    Starts {
        tid: Tid,
    },
}

// What happens, as a word's lowest part has it: the number of a leave's reason, or one of these.
const TAKES: u64 = 6;

const STARTS: u64 = 7;

#[derive(Drop)]
pub struct Moves<'a> {
    pub words: &'a mut [u64],
    pub count: usize,
}

impl Moves<'_> {
    pub fn push(&mut self, m: Move)
        requires { OnBoard (move_meant m) × (self.old.count < length self.old.words.now) }
        ensures moves { made self.new ≡ made self.old ++ (move_meant m ∷ []) }
        ensures count { self.new.count ≡ self.old.count + 1 }
        ensures out { Appended 1 self.old.count self.new.count self.old.words.now self.new.words.now }
        ensures lent { StillLent self.old.words self.new.words }
    {
        self.words[self.count] = word(m);
        self.count += 1;
    }
}

// A word is (thread * 8 + core) * 8 + what happens; a start is on no core of its own.
#[tactic(auto, using(crate::proofs::Words::decoded))]
pub fn word(m: Move) -> u64
    requires { OnBoard (move_meant m) }
    ensures { decode result ≡ move_meant m }
{
    match m {
        Move::Leaves { tid, core, reason } => packed(tid, core, reason.code()),
        Move::Takes { tid, core } => packed(tid, core, TAKES),
        Move::Starts { tid } => packed(tid, CoreId(0), STARTS),
    }
}

fn packed(tid: Tid, core: CoreId, code: u64) -> u64
    requires { (core.0 < 8) × (code < 8) }
    ensures { result ≡ (tid.0 * 8 + core.0) * 8 + code }
{
    (tid.0 as u64 * 8 + core.0 as u64) * 8 + code
}

pub fn move_of(word: u64) -> Move
    ensures { move_meant result ≡ decode word }
{
    let core = CoreId((word / 8 % 8) as u32);
    let tid = Tid((word / 8 / 8 % 4294967296) as u32);
    match LeaveReason::try_from(word % 8) {
        Ok(reason) => Move::Leaves { tid, core, reason },
        Err(UnknownReason(TAKES)) => Move::Takes { tid, core },
        Err(UnknownReason(_)) => Move::Starts { tid },
    }
}

// The move at place k.
pub fn move_at(out: &[u64], k: usize) -> Move
    requires { k < length out.now }
    ensures { move_meant result ≡ decode (get_or out.now k 0) }
{
    move_of(out[k])
}
