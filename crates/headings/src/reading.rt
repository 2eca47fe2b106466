// A line up to `cores=` read: a setting, or the number of cores, which ends the settings.
ghost use Rattle.std.specs.Prelude.{◌≡◌};
ghost use Rattle.rcfg.specs.Reading.{key_meant, head_meant};
ghost use Rattle.fields.specs.Reading.{number_read_meant};
ghost use Rattle.script.specs.Script.{cores_of, heading, head_line};
ghost use Rattle.headings.specs.Reading.{heading_read_meant};

use crate::Heading;
use fields::one_number;
use rcfg::reading::{head_key, set_value};
use rcfg::{Head, HeadKey};
use settings::Refusal;
use text::lines::value;

// The number of cores. Over 8 is 2.
#[tactic(auto, unfolding(script::specs::Script::cores_of, script::specs::Script::up_to8))]
fn read_cores(v: &[u8]) -> Result<u32, Refusal>
    ensures { number_read_meant result ≡ cores_of v.now }
{
    let cores = one_number(v)?;
    if cores > 8 {
        return Err(Refusal::CoreCount);
    }
    Ok(cores)
}

// What a key and its value make of the settings so far.
#[tactic(auto, unfolding(script::specs::Script::heading, settings::specs::Settings::setting, text::specs::Lines::map_read))]
pub fn heading_of(h: Head, key: Option<HeadKey>, v: &[u8]) -> Result<Heading, Refusal>
    ensures { heading_read_meant result ≡ heading (head_meant h) (key_meant key) v.now }
{
    match key {
        Some(HeadKey::Cores) => {
            let cores = read_cores(v)?;
            Ok(Heading::Done {
                config: h.config,
                cores,
            })
        }
        _ => set_value(h, key, v).map(Heading::More),
    }
}

// A line without its byte 10.
#[tactic(auto, unfolding(script::specs::Script::head_line))]
pub fn read_head(h: Head, line: &[u8]) -> Result<Heading, Refusal>
    ensures { heading_read_meant result ≡ head_line (head_meant h) line.now }
{
    heading_of(h, head_key(line), value(line))
}
