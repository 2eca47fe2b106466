// Texts, numbers and names put into a lent buffer, which goes to standard output whenever the next text does not fit.
ghost use Rattle.std.specs.Prelude.{◌≤◌, length};
ghost use Rattle.text.specs.Bytes.{decimal};
ghost use Rattle.text.specs.Buffers.{StillLent};
ghost use Rattle.text.specs.Reading.{number_meant};
ghost use Rattle.settings.specs.Reading.{policy_meant};
ghost use Rattle.model.specs.Reading.{option_tid_meant, option_core_meant, option_tick_meant, reason_meant};
ghost use Rattle.script.specs.Report.{reason_word};
ghost use Rattle.trace_text.specs.Texts.{spaced, spaced_maybe, spaced_policy, bit_text};
ghost use Rattle.trace_text.specs.Streams.{Placed, Within, Written, WrittenWhole};

use model::{CoreId, LeaveReason, Tick, Tid};
use settings::SchedPolicy;
use text::STDOUT_FILENO;
use text::put::put;

// A lent buffer: out[..at] has been put and is not yet handed over.
#[derive(Drop)]
pub struct Stream<'a> {
    pub out: &'a mut [u8],
    pub at: usize,
}

impl Stream<'_> {
    // What was put and is not yet handed over goes to standard output.
    pub fn write_out(&self)
        requires { Within self.now }
    {
        io::write_all(STDOUT_FILENO, &self.out[..self.at]);
    }

    pub fn text(&mut self, text: &[u8])
        requires { Within self.old }
        ensures { WrittenWhole self.old text.now self.new }
    {
        if text.len() <= self.out.len() - self.at {
            self.at = put(self.out, self.at, text);
            return;
        }
        self.write_out();
        self.first(text);
    }

    // A text over what was handed over; one that is longer than the buffer goes straight out.
    fn first(&mut self, text: &[u8])
        ensures placed { Placed self.old.out.now 0 text.now self.new.out.now self.new.at }
        ensures lent { StillLent self.old.out self.new.out }
    {
        if text.len() <= self.out.len() {
            self.at = put(self.out, 0, text);
            return;
        }
        io::write_all(STDOUT_FILENO, text);
        self.at = 0;
    }

    pub fn number(&mut self, n: u64)
        requires { Within self.old }
        ensures { Written self.old (decimal n) self.new }
    {
        let mut digits = [0u8; 20];
        let k = io::decimal(n, &mut digits);
        self.text(&digits[..k]);
    }

    // A space and a number.
    pub fn spaced(&mut self, n: u64)
        requires { Within self.old }
        ensures { Written self.old (spaced n) self.new }
    {
        self.text(b" ");
        self.number(n);
    }

    // 1 where b is true.
    #[tactic(auto, unfolding(crate::specs::Texts::bit_text), using(crate::proofs::Streaming::whole))]
    pub fn bit(&mut self, b: bool)
        requires { Within self.old }
        ensures { Written self.old (bit_text b) self.new }
    {
        if b {
            self.text(b"1");
        } else {
            self.text(b"0");
        }
    }

    // A space and a number, or a dash for none.
    #[tactic(auto, unfolding(crate::specs::Texts::spaced, crate::specs::Texts::spaced_maybe, script::specs::Report::maybe), using(crate::proofs::Streaming::whole))]
    pub fn maybe(&mut self, n: Option<u64>)
        requires { Within self.old }
        ensures { Written self.old (spaced_maybe (number_meant n)) self.new }
    {
        match n {
            None => self.text(b" -"),
            Some(n) => self.spaced(n),
        }
    }

    // The same of a thread, a core, a tick.
    pub fn tid(&mut self, tid: Option<Tid>)
        requires { Within self.old }
        ensures { Written self.old (spaced_maybe (option_tid_meant tid)) self.new }
    {
        self.maybe(tid.map(|t| t.0 as u64));
    }

    pub fn core(&mut self, core: Option<CoreId>)
        requires { Within self.old }
        ensures { Written self.old (spaced_maybe (option_core_meant core)) self.new }
    {
        self.maybe(core.map(|c| c.0 as u64));
    }

    pub fn tick(&mut self, tick: Option<Tick>)
        requires { Within self.old }
        ensures { Written self.old (spaced_maybe (option_tick_meant tick)) self.new }
    {
        self.maybe(tick.map(|t| t.0));
    }

    // The words of the Rust's labels.
    #[tactic(auto, using(crate::proofs::Streaming::whole))]
    pub fn reason(&mut self, reason: LeaveReason)
        requires { Within self.old }
        ensures { Written self.old (reason_word (reason_meant reason)) self.new }
    {
        match reason {
            LeaveReason::Exit => self.text(b"exit"),
            LeaveReason::Block => self.text(b"join"),
            LeaveReason::Yield => self.text(b"yield"),
            LeaveReason::Quantum => self.text(b"quantum"),
            LeaveReason::Preempt => self.text(b"preempt"),
            LeaveReason::Forced => self.text(b"forced"),
        }
    }

    // A space and the policy's word.
    pub fn policy(&mut self, policy: SchedPolicy)
        requires { Within self.old }
        ensures { Written self.old (spaced_policy (policy_meant policy)) self.new }
    {
        self.text(b" ");
        self.text(policy.as_str().as_bytes());
    }
}
