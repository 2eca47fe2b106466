// The lines that calls print: a refusal, a join, the switches of a tick end or of a forced switch.
ghost use Rattle.std.specs.Prelude.{◌+◌, ◌<◌, ◌≤◌, ◌^◌};
ghost use Rattle.text.specs.Buffers.{HasRoom, Wrote};
ghost use Rattle.settings.specs.Reading.{refusal_number};
ghost use Rattle.model.specs.Reading.{join_meant, switch_meant, switches_meant};
ghost use Rattle.script.specs.Report.{switch_text, switch_texts, joined_text, refused_text};

use crate::values::{out_tid, put_maybe, put_out_reason};
use model::{JoinOutcome, Switch, Tick};
use script::labels::join_label;
use settings::Refusal;
use switches::SwitchList;
use text::put::Writer;

// "a refusal `refused=line,number`"
#[tactic(auto, unfolding(script::specs::Report::refused_text, text::specs::Lines::written, text::specs::Lines::commas))]
pub fn put_refused(w: &mut Writer, line: u64, refusal: Refusal)
    requires { HasRoom w.old (refused_text line (refusal_number refusal)) }
    ensures text { Wrote w.old (refused_text line (refusal_number refusal)) w.new }
    ensures short { line < 10 ^ 13 → w.new.at ≤ w.old.at + 36 }
{
    let number = refusal.number();
    w.put(b"refused=");
    w.put_number(line);
    w.put(b",");
    w.put_number(number);
    w.put(b"\n");
}

// "a join `joined=line,wait` (or done, invalid)"
#[tactic(auto, unfolding(script::specs::Report::joined_text, text::specs::Lines::written, text::specs::Lines::commas))]
pub fn put_joined(w: &mut Writer, line: u64, outcome: JoinOutcome)
    requires { HasRoom w.old (joined_text line (join_meant outcome)) }
    ensures text { Wrote w.old (joined_text line (join_meant outcome)) w.new }
    ensures short { line < 10 ^ 13 → w.new.at ≤ w.old.at + 36 }
{
    w.put(b"joined=");
    w.put_number(line);
    w.put(b",");
    w.put(join_label(outcome).as_bytes());
    w.put(b"\n");
}

// "A switch prints `switch=now,core,out,reason,in`"
#[tactic(auto, unfolding(script::specs::Report::switch_text, text::specs::Lines::written, text::specs::Lines::commas))]
fn put_switch(w: &mut Writer, tick: Tick, s: Switch)
    requires { HasRoom w.old (switch_text tick.0 (switch_meant s)) }
    ensures { Wrote w.old (switch_text tick.0 (switch_meant s)) w.new }
{
    w.put(b"switch=");
    w.put_number(tick.0);
    w.put(b",");
    w.put_number(s.core.0 as u64);
    w.put(b",");
    put_maybe(w, out_tid(s.out));
    w.put(b",");
    put_out_reason(w, s.out);
    w.put(b",");
    put_maybe(w, s.inn);
    w.put(b"\n");
}

// A line for each entry of a switch list, in order.
pub fn put_switches(w: &mut Writer, tick: Tick, switches: SwitchList)
    requires { (switches.count ≤ 8) × HasRoom w.old (switch_texts tick.0 (switches_meant switches.entries switches.count)) }
    ensures { Wrote w.old (switch_texts tick.0 (switches_meant switches.entries switches.count)) w.new }
{
    for &entry in &switches.entries[..switches.count] {
        put_switch(w, tick, entry);
    }
}
