// A line read in the stage of its report.
ghost use Rattle.std.specs.Prelude.{◌≡◌, ℕ, suc, ◌≤◌};
ghost use Rattle.text.specs.Searches.{line_if};
ghost use Rattle.rcfg.specs.Reading.{head_meant};
ghost use Rattle.model.specs.Types.{State};
ghost use Rattle.commands.specs.Reading.{command_meant};
ghost use Rattle.script.specs.Report.{line_at, fed};
ghost use Rattle.script.specs.Report.{heads as Report·heads, calls as Report·calls};
ghost use Rattle.state.specs.declared.Sched.{Sched};
ghost use Rattle.sched.specs.Meant.{call_meant};
ghost use Rattle.feed_plan.specs.Meant.{Few};
ghost use Rattle.feed_plan.specs.Steps.{HeadSays, CallSays, fed_by};
ghost use Rattle.feed_plan.specs.Feeding.{LineRead, reader_of, report_of};

use crate::{Line, Reader, Report, Stage};
use commands::Command;
use commands::calls::read_call;
use headings::Heading;
use headings::reading::read_head;
use model::Tick;
use rcfg::Head;
use sched::Call;
use settings::Refusal;
use text::lines::is_line;

// A call as a script writes it is a call; a thread that is spawned has entry 0.
fn call_of(command: Command) -> Call
    ensures { call_meant result ≡ command_meant command }
{
    match command {
        Command::Spawn(parent) => Call::Spawn(parent, 0),
        Command::Exit(core) => Call::Exit(core),
        Command::Join(core, target) => Call::Join(core, target),
        Command::Retired(core) => Call::Retired(core),
        Command::Yield(core) => Call::YieldNow(core),
        Command::Prio(tid, number) => Call::SetPriority(tid, number),
        Command::Force(core, named) => Call::ForceSwitch(core, named),
        Command::Tick => Call::EndTick,
        Command::Close(core) => Call::Close(core),
    }
}

// Whether a piece is a line. "A script has at most 1,000,000,000,000 lines; the next one is 6."
#[tactic(auto, using(crate::proofs::Lines::line_beyond, crate::proofs::Lines::line_within))]
fn is_readable(lines: u64, piece: &[u8]) -> bool
    ensures { line_at (suc lines) piece.now ≡ line_if result piece.now }
{
    lines < 1_000_000_000_000 && is_line(piece)
}

fn read_heading(lines: u64, h: Head, piece: &[u8]) -> Result<Line, Refusal>
    ensures says { (n : ℕ) → fed n (Report·heads (head_meant h)) (line_at (suc lines) piece.now) ≡ fed_by n (Report·heads (head_meant h)) result }
    ensures fits { HeadSays result }
{
    if !is_readable(lines, piece) {
        return Err(Refusal::BadLine);
    }
    match read_head(h, &piece[..piece.len() - 1])? {
        Heading::More(next) => Ok(Line::Head(next)),
        Heading::Done { config, cores } => Ok(Line::Start { config, cores }),
    }
}

fn read_calling(lines: u64, piece: &[u8]) -> Result<Line, Refusal>
    ensures says { (n : ℕ) (s : State) → fed n (Report·calls s) (line_at (suc lines) piece.now) ≡ fed_by n (Report·calls s) result }
    ensures fits { CallSays result }
{
    if !is_readable(lines, piece) {
        return Err(Refusal::BadLine);
    }
    let command = read_call(&piece[..piece.len() - 1])?;
    Ok(Line::Call(call_of(command)))
}

pub fn reader_of(r: Report) -> Reader
    ensures { result ≡ reader_of r }
{
    Reader {
        lines: r.lines,
        stage: r.stage,
        head: r.head,
    }
}

// What a line, its byte 10 included, says in the report's stage, whatever its scheduler.
pub fn read_piece(k: Reader, piece: &[u8]) -> Result<Line, Refusal>
    requires { Few k.stage k.lines }
    ensures { (s : Sched) → LineRead (report_of k s) piece.now result }
{
    match k.stage {
        Stage::Heads => read_heading(k.lines, k.head, piece),
        Stage::Calls => read_calling(k.lines, piece),
        Stage::Ended | Stage::Over => Ok(Line::Nothing),
    }
}

// The same, of the whole report.
pub fn read_line(r: Report, piece: &[u8]) -> Result<Line, Refusal>
    requires { Few r.stage r.lines }
    ensures { LineRead r piece.now result }
{
    read_piece(reader_of(r), piece)
}
