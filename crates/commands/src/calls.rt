// A call line read: its key, then its value as the key wants it.
ghost use Rattle.std.specs.Prelude.{◌≡◌};
ghost use Rattle.text.specs.Bytes.{lookup};
ghost use Rattle.script.specs.Script.{call_keys, calling, call_line, bare_tick};
ghost use Rattle.commands.specs.Reading.{call_key_meant, call_read_meant, IsOnCore};

use crate::{CallKey, Command};
use fields::{number_and_maybe, one_maybe, one_number, two_numbers};
use model::{CoreId, Tid};
use settings::Refusal;
use text::lines::{equals_at, is_same, trimmed};

// The call that a key names.
pub fn call_key(key: &[u8]) -> Option<CallKey>
    ensures { call_key_meant result ≡ lookup key.now call_keys }
{
    if is_same(key, b"spawn") {
        Some(CallKey::Spawn)
    } else if is_same(key, b"exit") {
        Some(CallKey::Exit)
    } else if is_same(key, b"join") {
        Some(CallKey::Join)
    } else if is_same(key, b"retired") {
        Some(CallKey::Retired)
    } else if is_same(key, b"yield") {
        Some(CallKey::Yield)
    } else if is_same(key, b"prio") {
        Some(CallKey::Prio)
    } else if is_same(key, b"force") {
        Some(CallKey::Force)
    } else if is_same(key, b"tick") {
        Some(CallKey::Tick)
    } else if is_same(key, b"close") {
        Some(CallKey::Close)
    } else {
        None
    }
}

// A call that names a core alone.
fn on_core<F: FnOnce(CoreId) -> Command>(v: &[u8], call: F) -> Result<Command, Refusal>
    requires { F.IsAlwaysCallable call }
    ensures { IsOnCore (F.post call) v.now result }
{
    let core = one_number(v)?;
    Ok(call(CoreId(core)))
}

#[tactic(auto, unfolding(script::specs::Script::bare_tick))]
fn read_tick(v: &[u8]) -> Result<Command, Refusal>
    ensures { call_read_meant result ≡ bare_tick v.now }
{
    if v.is_empty() {
        Ok(Command::Tick)
    } else {
        Err(Refusal::BadLine)
    }
}

// What a key and its value call.
#[tactic(auto, unfolding(script::specs::Script::calling, script::specs::Script::call_of, text::specs::Lines::one, text::specs::Lines::two, text::specs::Lines::both, text::specs::Lines::map_read))]
pub fn call_of(key: Option<CallKey>, v: &[u8]) -> Result<Command, Refusal>
    ensures { call_read_meant result ≡ calling (call_key_meant key) v.now }
{
    match key.ok_or(Refusal::BadLine)? {
        CallKey::Spawn => one_maybe(v).map(Command::Spawn),
        CallKey::Exit => on_core(v, Command::Exit),
        CallKey::Join => two_numbers(v).map(|(core, tid)| Command::Join(CoreId(core), Tid(tid))),
        CallKey::Retired => on_core(v, Command::Retired),
        CallKey::Yield => on_core(v, Command::Yield),
        CallKey::Prio => two_numbers(v).map(|(tid, priority)| Command::Prio(Tid(tid), priority)),
        CallKey::Force => number_and_maybe(v).map(|(core, tid)| Command::Force(CoreId(core), tid)),
        CallKey::Tick => read_tick(v),
        CallKey::Close => on_core(v, Command::Close),
    }
}

// A line without its byte 10.
pub fn read_call(line: &[u8]) -> Result<Command, Refusal>
    ensures { call_read_meant result ≡ call_line line.now }
{
    let end = equals_at(line).ok_or(Refusal::BadLine)?;
    call_of(call_key(&line[..end]), trimmed(&line[end + 1..]))
}
