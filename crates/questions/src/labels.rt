// The words that a screen shows: where a thread is in its life, and why it left its core.
ghost use Rattle.std.specs.Prelude.{◌≡◌};
ghost use Rattle.model.specs.Reading.{reason_meant, thread_state_meant};
ghost use Rattle.script.specs.Report.{reason_word};
ghost use Rattle.questions.specs.Questions.{state_word};

use model::{LeaveReason, ThreadState};

// The Rust's `LeaveReason::label`.
pub fn reason_label(reason: LeaveReason) -> &'static str
    ensures { result.now ≡ reason_word (reason_meant reason) }
{
    script::labels::reason_label(reason)
}

// The Rust's `ThreadState::label`.
pub fn state_label(state: ThreadState) -> &'static str
    ensures { result.now ≡ state_word (thread_state_meant state) }
{
    match state {
        ThreadState::Ready => "READY",
        ThreadState::Running(_) => "RUN",
        ThreadState::Blocked(_) => "BLOCK",
        ThreadState::Exited => "EXIT",
    }
}
