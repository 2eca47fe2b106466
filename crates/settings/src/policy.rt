// The policies: their words, their names on a screen, and what each allows.
ghost use Rattle.std.specs.Prelude.{◌≡◌, map};
ghost use Rattle.settings.specs.Policy.{all_policies, is_enabled, is_preemptive};
ghost use Rattle.text.specs.Bytes.{lower_of};
ghost use Rattle.text.specs.Lines.{trim};
ghost use Rattle.settings.specs.Settings.{policy_of, policy_word, policy_label};
ghost use Rattle.settings.specs.Reading.{policy_meant, policy_found_meant, numbered};

use crate::SchedPolicy;
use text::lines::trimmed;

// A word that settings may have, and the policy that it names.
#[derive(Clone, Copy)]
struct PolicyWord {
    word: &'static [u8],
    policy: SchedPolicy,
}

const WORDS: [PolicyWord; 11] = [
    PolicyWord {
        word: b"off",
        policy: SchedPolicy::Off,
    },
    PolicyWord {
        word: b"none",
        policy: SchedPolicy::Off,
    },
    PolicyWord {
        word: b"pinned",
        policy: SchedPolicy::Off,
    },
    PolicyWord {
        word: b"fifo",
        policy: SchedPolicy::Fifo,
    },
    PolicyWord {
        word: b"fcfs",
        policy: SchedPolicy::Fifo,
    },
    PolicyWord {
        word: b"rr",
        policy: SchedPolicy::RoundRobin,
    },
    PolicyWord {
        word: b"round-robin",
        policy: SchedPolicy::RoundRobin,
    },
    PolicyWord {
        word: b"roundrobin",
        policy: SchedPolicy::RoundRobin,
    },
    PolicyWord {
        word: b"round_robin",
        policy: SchedPolicy::RoundRobin,
    },
    PolicyWord {
        word: b"priority",
        policy: SchedPolicy::Priority,
    },
    PolicyWord {
        word: b"prio",
        policy: SchedPolicy::Priority,
    },
];

// The policy that a word names, letter case ignored, white space not.
pub fn policy_of(w: &[u8]) -> Option<SchedPolicy>
    ensures { policy_found_meant result ≡ policy_of w.now }
{
    for row in &WORDS {
        if w.eq_ignore_ascii_case(row.word) {
            return Some(row.policy);
        }
    }
    None
}

// Every policy, in the Rust's order.
const ALL: [SchedPolicy; 4] = [
    SchedPolicy::Off,
    SchedPolicy::Fifo,
    SchedPolicy::RoundRobin,
    SchedPolicy::Priority,
];

impl SchedPolicy {
    // Every policy, for a host that shows a choice.
    pub fn all() -> [SchedPolicy; 4]
        ensures { map policy_meant result ≡ all_policies }
    {
        ALL
    }

    // The policy with this number, counted from 0 in the Rust's order.
    pub fn numbered(number: u32) -> Option<SchedPolicy>
        ensures { result ≡ numbered number }
    {
        match number {
            0 => Some(SchedPolicy::Off),
            1 => Some(SchedPolicy::Fifo),
            2 => Some(SchedPolicy::RoundRobin),
            3 => Some(SchedPolicy::Priority),
            _ => None,
        }
    }

    // The word that settings are written with.
    pub fn as_str(self) -> &'static str
        ensures { result.now ≡ policy_word (policy_meant self) }
    {
        match self {
            SchedPolicy::Off => "off",
            SchedPolicy::Fifo => "fifo",
            SchedPolicy::RoundRobin => "rr",
            SchedPolicy::Priority => "priority",
        }
    }

    // The policy that a text names, white space around it and letter case ignored.
    pub fn from_str(s: &[u8]) -> Option<SchedPolicy>
        ensures { policy_found_meant result ≡ policy_of (trim s.now) }
    {
        policy_of(trimmed(s))
    }

    // The name a screen shows.
    pub fn label(self) -> &'static str
        ensures { result.now ≡ policy_label (policy_meant self) }
    {
        match self {
            SchedPolicy::Off => "off",
            SchedPolicy::Fifo => "FIFO",
            SchedPolicy::RoundRobin => "Round robin",
            SchedPolicy::Priority => "Priority",
        }
    }

    // Whether threads share the cores at all.
    pub fn is_enabled(self) -> bool
        ensures { result ≡ is_enabled (policy_meant self) }
    {
        !matches!(self, SchedPolicy::Off)
    }

    // Whether a running thread can lose its core without asking.
    pub fn is_preemptive(self) -> bool
        ensures { result ≡ is_preemptive (policy_meant self) }
    {
        matches!(self, SchedPolicy::RoundRobin | SchedPolicy::Priority)
    }
}
