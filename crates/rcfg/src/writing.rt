// The settings' text put into a lent buffer.
ghost use Rattle.std.specs.Prelude.{◌≡◌, ◌∷◌, [], ◌≤◌, length};
ghost use Rattle.text.specs.Buffers.{HasRoom, Wrote};
ghost use Rattle.settings.specs.Buffers.{to_rcfg_in, written_and_read};
ghost use Rattle.text.specs.Lines.{written};
ghost use Rattle.settings.specs.Settings.{to_rcfg, Within, policy_word};
ghost use Rattle.settings.specs.Reading.{policy_meant, settings_meant};
ghost use Rattle.rcfg.specs.Reading.{laid_meant, settled_meant};

use crate::RefusedLine;
use crate::reading::from_rcfg;
use settings::{Refusal, SchedConfig, SchedPolicy};
use text::put::Writer;

// Puts the line of a policy.
#[tactic(auto, unfolding(text::specs::Lines::written, text::specs::Lines::commas))]
fn put_policy(w: &mut Writer, policy: SchedPolicy)
    requires { HasRoom w.old (written "sched" (policy_word (policy_meant policy) ∷ [])) }
    ensures { Wrote w.old (written "sched" (policy_word (policy_meant policy) ∷ [])) w.new }
{
    w.put(b"sched=");
    w.put(policy.as_str().as_bytes());
    w.put(b"\n");
}

// Puts the settings' text.
#[tactic(auto, unfolding(settings::specs::Settings::to_rcfg, text::specs::Lines::written, text::specs::Lines::commas))]
fn put_settings(w: &mut Writer, c: SchedConfig)
    requires { HasRoom w.old (to_rcfg (settings_meant c)) }
    ensures { Wrote w.old (to_rcfg (settings_meant c)) w.new }
{
    put_policy(w, c.policy);
    w.put_number_line(b"sched_quantum=", u64::from(c.quantum));
    w.put_number_line(b"sched_switch_cost=", u64::from(c.switch_cost));
}

// The settings' text at the start of out, or nothing where it does not fit. Answers how many bytes were written.
#[tactic(auto, using(crate::proofs::RoundTrip::rcfg_length), unfolding(settings::specs::Buffers::to_rcfg_in, text::specs::Buffers::laid))]
pub fn to_rcfg(c: SchedConfig, out: &mut [u8]) -> Result<usize, Refusal>
    ensures { laid_meant result out.new ≡ to_rcfg_in (settings_meant c) out.old }
{
    let mut text = [0u8; 96];
    let mut w = Writer {
        out: &mut text,
        at: 0,
    };
    put_settings(&mut w, c);
    let n = w.at;
    if out.len() < n {
        return Err(Refusal::Capacity);
    }
    out[..n].copy_from_slice(&text[..n]);
    Ok(n)
}

// Writes the settings and reads them back: within the limits, and where they fit, they are the same.
#[tactic(auto, using(crate::proofs::RoundTrip::round_trip), unfolding(settings::specs::Buffers::written_and_read, settings::specs::Buffers::to_rcfg_in, text::specs::Buffers::laid))]
pub fn write_and_read(c: SchedConfig, out: &mut [u8]) -> Result<SchedConfig, RefusedLine>
    ensures result_value { settled_meant result ≡ written_and_read (settings_meant c) out.old }
    ensures out_after { out.new ≡ (to_rcfg_in (settings_meant c) out.old).buffer }
    ensures value { Within (settings_meant c) → length (to_rcfg (settings_meant c)) ≤ length out.old → result ≡ Ok c }
{
    let n = to_rcfg(c, out).map_err(|refusal| RefusedLine { line: 0, refusal })?;
    from_rcfg(&out[..n])
}
