// The words for why a thread left its core, and for what a join found.
ghost use Rattle.std.specs.Prelude.{◌≡◌};
ghost use Rattle.model.specs.Reading.{reason_meant, join_meant};
ghost use Rattle.script.specs.Report.{reason_word, join_word};

use model::{JoinOutcome, LeaveReason};

// The Rust's `LeaveReason::label`.
pub fn reason_label(reason: LeaveReason) -> &'static str
    ensures { result.now ≡ reason_word (reason_meant reason) }
{
    match reason {
        LeaveReason::Exit => "exit",
        LeaveReason::Block => "join",
        LeaveReason::Yield => "yield",
        LeaveReason::Quantum => "quantum",
        LeaveReason::Preempt => "preempt",
        LeaveReason::Forced => "forced",
    }
}

// "a join `joined=line,wait` (or done, invalid)"
pub fn join_label(outcome: JoinOutcome) -> &'static str
    ensures { result.now ≡ join_word (join_meant outcome) }
{
    match outcome {
        JoinOutcome::Wait => "wait",
        JoinOutcome::Done => "done",
        JoinOutcome::Invalid => "invalid",
    }
}
