// One value of a line: a thread, or why one left.
ghost use Rattle.std.specs.Prelude.{◌≡◌};
ghost use Rattle.text.specs.Buffers.{HasRoom, Wrote};
ghost use Rattle.model.specs.Reading.{option_tid_meant, option_out_meant};
ghost use Rattle.script.specs.Report.{maybe, out_tid, out_reason};

use model::{SwitchOut, Tid};
use script::labels::reason_label;
use text::put::Writer;

// The thread that left.
#[tactic(auto, unfolding(script::specs::Report::out_tid))]
pub(crate) fn out_tid(o: Option<SwitchOut>) -> Option<Tid>
    ensures { option_tid_meant result ≡ out_tid (option_out_meant o) }
{
    o.map(|left| left.tid)
}

// "absent fields `-`"
#[tactic(auto, unfolding(script::specs::Report::maybe))]
pub(crate) fn put_maybe(w: &mut Writer, t: Option<Tid>)
    requires { HasRoom w.old (maybe (option_tid_meant t)) }
    ensures { Wrote w.old (maybe (option_tid_meant t)) w.new }
{
    let Some(tid) = t else {
        return w.put(b"-");
    };
    w.put_number(tid.0 as u64);
}

#[tactic(auto, unfolding(script::specs::Report::out_reason))]
pub(crate) fn put_out_reason(w: &mut Writer, o: Option<SwitchOut>)
    requires { HasRoom w.old (out_reason (option_out_meant o)) }
    ensures { Wrote w.old (out_reason (option_out_meant o)) w.new }
{
    match o {
        None => w.put(b"-"),
        Some(left) => w.put(reason_label(left.reason).as_bytes()),
    }
}
