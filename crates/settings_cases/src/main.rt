// Runs the examples of the settings. Standard input holds at most 65,536 bytes: for each case its length in decimal, ended by
// byte 10, and then its bytes. What each case reads as is printed, and settings are written, refused a short buffer and read back.
#![tactic(auto)]

use rcfg::RefusedLine;
use rcfg::reading::from_rcfg;
use rcfg::writing::{to_rcfg, write_and_read};
use settings::SchedConfig;
use text::lines::piece_end;
use text::numbers::read_number;
use text::{STDIN_FILENO, STDOUT_FILENO};

fn main() {
    let mut input = io::large_buffer();
    let n = io::read_full(STDIN_FILENO, &mut input);
    run_cases(&input[..n]);
}

// Stops where a length is no number or goes beyond the input.
fn run_cases(input: &[u8]) {
    let mut rest = input;
    let mut case: u64 = 0;
    while !rest.is_empty() {
        let (line, behind) = rest.split_at(piece_end(rest, 0));
        let Some(len) = read_number(&line[..line.len() - 1]) else {
            print(b"unreadable\n");
            return;
        };
        let Some((text, next)) = behind.split_at_checked(len as usize) else {
            print(b"short\n");
            return;
        };
        case += 1;
        print_number(b"case=", case);
        run_case(text);
        rest = next;
    }
}

fn run_case(text: &[u8]) {
    match from_rcfg(text) {
        Err(line) => print_refused(line),
        Ok(c) => {
            print_settings(b"settings=", c);
            print_written(c);
            print_short(c);
            print_back(c);
        }
    }
}

#[tactic(auto, unfolding(settings::specs::Buffers::to_rcfg_in, text::specs::Buffers::laid))]
fn print_written(c: SchedConfig) {
    let mut out = [0u8; 69];
    match to_rcfg(c, &mut out) {
        Ok(n) => print(&out[..n]),
        Err(refusal) => print_number(b"refused=", refusal.number()),
    }
}

// No settings' text is so short.
fn print_short(c: SchedConfig) {
    let mut out = [0u8; 44];
    match to_rcfg(c, &mut out) {
        Ok(n) => print_number(b"count=", n as u64),
        Err(refusal) => print_number(b"short=", refusal.number()),
    }
}

fn print_back(c: SchedConfig) {
    let mut out = [0u8; 69];
    match write_and_read(c, &mut out) {
        Ok(d) => print_settings(b"back=", d),
        Err(line) => print_refused(line),
    }
}

fn print_settings(key: &[u8], c: SchedConfig) {
    print(key);
    print(c.policy.label().as_bytes());
    print_flag(c.policy.is_enabled());
    print_flag(c.policy.is_preemptive());
    print(b",");
    io::print_decimal(STDOUT_FILENO, c.quantum.into());
    print_number(b",", c.switch_cost.into());
}

fn print_refused(r: RefusedLine) {
    print(b"refused=");
    io::print_decimal(STDOUT_FILENO, r.line);
    print_number(b",", r.refusal.number());
}

fn print_flag(b: bool) {
    if b {
        print(b",yes");
    } else {
        print(b",no");
    }
}

// A text, a number and byte 10.
fn print_number(text: &[u8], n: u64) {
    print(text);
    io::print_decimal(STDOUT_FILENO, n);
    print(b"\n");
}

fn print(text: &[u8]) {
    io::write_all(STDOUT_FILENO, text);
}
