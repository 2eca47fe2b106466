// A script's lines read from standard input, and taken apart.
ghost use Rattle.std.specs.Prelude.{◌≡◌, true, not, ◌≤◌, eqb, length, take};
ghost use Rattle.std.specs.Option.{option_map};
ghost use Rattle.text.specs.Bytes.{all};
ghost use Rattle.trace_read.specs.declared.Line.TheVariants as Lines;
ghost use Rattle.trace_read.specs.Script.{fields_of, field, policy_numbered, needing, new_line, line_said, line_of, count_of, Read};

use crate::{Line, Setup};
use model::{CoreId, Tid};
use sched::Call;
use settings::{SchedConfig, SchedPolicy};
use state::Capacities;
use text::STDIN_FILENO;
use text::numbers::read_number;

// The next byte, 10 where the input has ended.
fn read_byte() -> u8 {
    let mut one = [10u8; 1];
    io::read_full(STDIN_FILENO, &mut one);
    one[0]
}

const LINE_END: u8 = 10;

// One line without its byte 10, read byte by byte: nothing is kept from one line to the next. A line that is too long is cut.
fn read_bytes(buffer: &mut [u8]) -> usize
    ensures { (result ≤ length buffer.old) × (all (λ b. not (eqb b 10)) (take result buffer.new) ≡ true) }
{
    for (i, place) in buffer.iter_mut().enumerate() {
        let b = read_byte();
        if b == LINE_END {
            return i;
        }
        *place = b;
    }
    buffer.len()
}

// The fields of a line, which spaces divide; what is no number, or is not there, is None.
pub fn fields(line: &[u8]) -> [Option<u32>; 9]
    ensures { result ≡ fields_of 9 line.now }
{
    let mut all = [None; 9];
    let mut rest = line.split(|b| *b == b' ');
    for place in &mut all {
        *place = rest.next().and_then(read_number);
    }
    all
}

fn policy_of(n: u32) -> SchedPolicy
    ensures { result ≡ policy_numbered n }
{
    SchedPolicy::numbered(n).unwrap_or(SchedPolicy::Priority)
}

// POLICY QUANTUM COST CORES T E S ENTRY, behind the code.
#[tactic(auto, unfolding(crate::specs::Script::needing, crate::specs::Script::new_line))]
fn setup_of(f: [Option<u32>; 9]) -> Option<Setup>
    ensures { option_map Lines.New result ≡ new_line f }
{
    let config = SchedConfig {
        policy: policy_of(f[1]?),
        quantum: f[2]?,
        switch_cost: f[3]?,
    };
    let cores = f[4]?;
    let capacities = Capacities {
        threads: f[5]? as usize,
        events: f[6]? as usize,
        segments: f[7]? as usize,
    };
    let entry_pc = f[8]?;
    Some(Setup {
        config,
        cores,
        capacities,
        entry_pc,
    })
}

// What the fields say, by the code, which is the first.
#[tactic(auto, unfolding(crate::specs::Script::needing, crate::specs::Script::line_said, crate::specs::Script::spawn_line, crate::specs::Script::core_line, crate::specs::Script::pair_line, crate::specs::Script::force_line), using(crate::proofs::Saying::code_other))]
fn line_in(f: [Option<u32>; 9]) -> Option<Line>
    ensures { result ≡ needing (field 0 f) (line_said f) }
{
    let line = match f[0]? {
        0 => Line::New(setup_of(f)?),
        1 => Line::Call(Call::Spawn(f[1].map(Tid), f[2].unwrap_or(0))),
        2 => Line::Call(Call::Exit(CoreId(f[1]?))),
        3 => Line::Call(Call::Join(CoreId(f[1]?), Tid(f[2]?))),
        4 => Line::Call(Call::Retired(CoreId(f[1]?))),
        5 => Line::Call(Call::YieldNow(CoreId(f[1]?))),
        6 => Line::Call(Call::SetPriority(Tid(f[1]?), f[2]?)),
        7 => Line::Call(Call::SetTiming(f[1]?, f[2]?)),
        8 => Line::Call(Call::ForceSwitch(CoreId(f[1]?), f[2].map(Tid))),
        9 => Line::Call(Call::EndTick),
        10 => Line::Call(Call::Close(CoreId(f[1]?))),
        11 => Line::Show,
        _ => return None,
    };
    Some(line)
}

// What a line says; None where it cannot be read.
#[tactic(auto, unfolding(crate::specs::Script::line_of))]
pub fn parsed(line: &[u8]) -> Option<Line>
    ensures { result ≡ line_of line.now }
{
    line_in(fields(line))
}

// The next line of the script. Which bytes are read is open.
pub fn read_line() -> Option<Line>
    ensures { Read (λ l. result ≡ line_of l) }
{
    let mut buffer = [0u8; 128];
    let n = read_bytes(&mut buffer);
    parsed(&buffer[..n])
}

// The first line of a script says how many follow. Which bytes are read is open.
pub fn read_count() -> usize
    ensures { Read (λ l. result ≡ count_of l) }
{
    let mut buffer = [0u8; 128];
    let n = read_bytes(&mut buffer);
    read_number(&buffer[..n]).unwrap_or(0) as usize
}
