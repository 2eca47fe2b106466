// Parts: a list of calls as a list of words, three a call: kind, first, second.
ghost use Rattle.std.specs.Prelude.{◌≡◌, ◌+◌, ◌*◌, ◌<◌, length};
ghost use Rattle.sched.specs.Meant.{call_meant};
ghost use Rattle.replay.specs.Encoding.{call_of, call_at};

use model::{CoreId, Tid};
use sched::Call;

// Every three words are a call: 9, and each kind that is not named, is a tick end.
pub fn call_of(kind: u32, first: u32, second: u32) -> Call
    ensures { call_meant result ≡ call_of kind first second }
{
    match kind {
        1 => Call::Spawn(Some(Tid(first)), second),
        2 => Call::Exit(CoreId(first)),
        3 => Call::Join(CoreId(first), Tid(second)),
        4 => Call::Retired(CoreId(first)),
        5 => Call::YieldNow(CoreId(first)),
        6 => Call::SetPriority(Tid(first), second),
        7 => Call::SetTiming(first, second),
        8 => Call::ForceSwitch(CoreId(first), Some(Tid(second))),
        10 => Call::Close(CoreId(first)),
        11 => Call::Spawn(None, second),
        12 => Call::ForceSwitch(CoreId(first), None),
        _ => Call::EndTick,
    }
}

// The call at place i of a list.
pub fn call_at(words: &[u32], i: usize) -> Call
    requires { 3 * i + 2 < length words.now }
    ensures { call_meant result ≡ call_at words.now i }
{
    let at = 3 * i;
    call_of(words[at], words[at + 1], words[at + 2])
}
