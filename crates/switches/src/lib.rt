// The switch list: "One entry per core touched, in order of first touch: thread out with reason, thread in."
// Its public functions are parts for other crates: a host reads the list that a call answers.
#![tactic(auto)]

ghost use Rattle.std.specs.Prelude.{◌≡◌, [], ◌<◌, ◌≤◌, length, IfSome};
ghost use Rattle.model.specs.Reading.{switch_meant};
ghost use Rattle.model.specs.Accounting.{switch_list};
ghost use Rattle.model.specs.Calls.{switched};
ghost use Rattle.queue.specs.Words.{moves_in, move_meant, OnBoard};
ghost use Rattle.switches.specs.Entries.{core_meant, core_touched, entry_after, no_switches, ListFor};

use model::{CoreId, Switch, SwitchOut};
use queue::moves;
use queue::moves::Move;

// The list is entries[..count].
#[derive(Clone, Copy)]
pub struct SwitchList {
    pub entries: [Switch; 8],
    pub count: usize,
}

// An entry of no core.
const NO_SWITCH: Switch = Switch {
    core: CoreId(0),
    out: None,
    inn: None,
};

// The list where no switch is due.
pub fn no_switches() -> SwitchList
    ensures { result ≡ no_switches }
{
    SwitchList {
        entries: [NO_SWITCH; 8],
        count: 0,
    }
}

// The core that a move touches.
fn core_touched(m: Move) -> Option<CoreId>
    requires { OnBoard (move_meant m) }
    ensures touched { core_meant result ≡ core_touched (move_meant m) }
    ensures on_board { IfSome result (λ core. core.0 < 8) }
{
    match m {
        Move::Starts { .. } => None,
        Move::Leaves { core, .. } | Move::Takes { core, .. } => Some(core),
    }
}

// The entry of the core that a move touches, after the move.
fn entry_after(e: Switch, m: Move) -> Switch
    ensures { switch_meant result ≡ entry_after (move_meant m) (switch_meant e) }
{
    match m {
        Move::Starts { .. } => e,
        Move::Leaves { tid, core, reason } => Switch {
            core,
            out: Some(SwitchOut { tid, reason }),
            ..e
        },
        Move::Takes { tid, core } => Switch {
            core,
            inn: Some(tid),
            ..e
        },
    }
}

// The switch list of the first n moves. Each core has at most one entry, so eight are enough.
pub fn switch_list(out: &[u64], n: usize) -> SwitchList
    requires { n ≤ length out.now }
    ensures { ListFor (switched (switch_list [] (moves_in out.now n))) result }
{
    let mut entries = [NO_SWITCH; 8];
    // where a core's entry stands; 8: nowhere yet, so that the smaller of this and the count is where it is to stand
    let mut places = [8usize; 8];
    let mut count: usize = 0;
    for k in 0..n {
        let m = moves::move_at(out, k);
        if let Some(core) = core_touched(m) {
            let c = core.0 as usize;
            let at = places[c].min(count);
            entries[at] = entry_after(entries[at], m);
            places[c] = at;
            count = count.max(at + 1);
        }
    }
    SwitchList { entries, count }
}
