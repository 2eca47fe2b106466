// Reading settings: one line, and a whole text. The order of the refusals on a line is 6, then 7 or 8, then 1.
#![tactic(auto, unfolding(settings::specs::Settings::setting, settings::specs::Settings::setting_line, settings::specs::Settings::setting_piece, settings::specs::Settings::in_order, settings::specs::Settings::ranged, text::specs::Lines::map_read, text::specs::Lines::needed, text::specs::Lines::or_bad, text::specs::Searches::line_if))]

ghost use Rattle.std.specs.Prelude.{◌≡◌};
ghost use Rattle.std.proofs.Math.Option.{some};
ghost use Rattle.text.specs.Bytes.{lookup};
ghost use Rattle.text.specs.Lines.{line_of, key_in, needed};
ghost use Rattle.settings.specs.Settings.{ranged, head_keys, none_yet, setting, setting_line, setting_piece, from_rcfg, PolicyKey, QuantumKey, CostKey};
ghost use Rattle.rcfg.specs.Reading.{ranged_meant, key_meant, head_meant, head_read_meant, settled_meant};

use crate::{Head, HeadKey, RefusedLine};
use settings::numbers::is_beyond;
use settings::policy::policy_of;
use settings::{Refusal, SchedConfig};
use text::lines::{equals_at, is_line, is_same, value};
use text::numbers::read_number;

impl Head {
    // Before the first line.
    pub fn new() -> Head
        ensures { head_meant result ≡ none_yet }
    {
        Head {
            config: SchedConfig::default(),
            past: 0,
        }
    }
}

// The key that a word is.
fn key_of(word: &[u8]) -> Option<HeadKey>
    ensures { key_meant result ≡ lookup word.now head_keys }
{
    if is_same(word, b"sched") {
        Some(HeadKey::Policy)
    } else if is_same(word, b"sched_quantum") {
        Some(HeadKey::Quantum)
    } else if is_same(word, b"sched_switch_cost") {
        Some(HeadKey::SwitchCost)
    } else if is_same(word, b"cores") {
        Some(HeadKey::Cores)
    } else {
        None
    }
}

// What the key of a line is.
pub fn head_key(line: &[u8]) -> Option<HeadKey>
    ensures { key_meant result ≡ key_in head_keys line.now }
{
    let end = equals_at(line)?;
    key_of(&line[..end])
}

// A number from `low` to `high`.
fn read_ranged(v: &[u8], low: u32, high: u32) -> Result<u32, Refusal>
    ensures { ranged_meant result ≡ ranged low high (needed v.now) }
{
    let n = read_number(v).ok_or(Refusal::BadNumber)?;
    if is_beyond(low.into(), high.into(), n.into()) {
        return Err(Refusal::SettingRange);
    }
    Ok(n)
}

fn read_policy(h: Head, v: &[u8]) -> Result<Head, Refusal>
    ensures { head_read_meant result ≡ setting (head_meant h) (some PolicyKey) v.now }
{
    if h.past > 0 {
        return Err(Refusal::BadLine);
    }
    let policy = policy_of(v).ok_or(Refusal::BadPolicy)?;
    let config = SchedConfig { policy, ..h.config };
    Ok(Head { config, past: 1 })
}

fn read_quantum(h: Head, v: &[u8]) -> Result<Head, Refusal>
    ensures { head_read_meant result ≡ setting (head_meant h) (some QuantumKey) v.now }
{
    if h.past > 1 {
        return Err(Refusal::BadLine);
    }
    let quantum = read_ranged(v, 1, SchedConfig::MAX_QUANTUM)?;
    let config = SchedConfig {
        quantum,
        ..h.config
    };
    Ok(Head { config, past: 2 })
}

fn read_switch_cost(h: Head, v: &[u8]) -> Result<Head, Refusal>
    ensures { head_read_meant result ≡ setting (head_meant h) (some CostKey) v.now }
{
    if h.past > 2 {
        return Err(Refusal::BadLine);
    }
    let switch_cost = read_ranged(v, 0, SchedConfig::MAX_SWITCH_COST)?;
    let config = SchedConfig {
        switch_cost,
        ..h.config
    };
    Ok(Head { config, past: 3 })
}

// What a key and its value set.
pub fn set_value(h: Head, key: Option<HeadKey>, v: &[u8]) -> Result<Head, Refusal>
    ensures { head_read_meant result ≡ setting (head_meant h) (key_meant key) v.now }
{
    match key {
        Some(HeadKey::Policy) => read_policy(h, v),
        Some(HeadKey::Quantum) => read_quantum(h, v),
        Some(HeadKey::SwitchCost) => read_switch_cost(h, v),
        Some(HeadKey::Cores) | None => Err(Refusal::BadLine),
    }
}

// A line without its byte 10.
pub fn read_line(h: Head, line: &[u8]) -> Result<Head, Refusal>
    ensures { head_read_meant result ≡ setting_line (head_meant h) line.now }
{
    set_value(h, head_key(line), value(line))
}

// A piece of the text, with its byte 10 if it has one.
pub fn read_setting(h: Head, piece: &[u8]) -> Result<Head, Refusal>
    ensures { head_read_meant result ≡ setting_piece (head_meant h) (line_of piece.now) }
{
    if !is_line(piece) {
        return Err(Refusal::BadLine);
    }
    read_line(h, &piece[..piece.len() - 1])
}

// A text of settings alone: the settings, or the first bad line with its refusal.
pub fn from_rcfg(text: &[u8]) -> Result<SchedConfig, RefusedLine>
    ensures { settled_meant result ≡ from_rcfg text.now }
{
    let mut h = Head::new();
    let mut line: u64 = 1;
    for piece in text.split_inclusive(|&b| b == b'\n') {
        h = read_setting(h, piece).map_err(|refusal| RefusedLine { line, refusal })?;
        line += 1;
    }
    Ok(h.config)
}
