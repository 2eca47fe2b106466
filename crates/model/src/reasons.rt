// A reason as the number that words keep.
ghost use Rattle.std.specs.Prelude.{◌≡◌};
ghost use Rattle.model.specs.Reading.{reason_meant};
ghost use Rattle.model.specs.Reasons.{reason_code, Decodes};

use crate::LeaveReason;

// A number that stands for no reason.
#[derive(Clone, Copy, PartialEq, Eq, Debug)]
pub struct UnknownReason(pub u64);

impl LeaveReason {
    pub fn code(self) -> u64
        ensures { result ≡ reason_code (reason_meant self) }
    {
        self as u64
    }
}

impl TryFrom<u64> for LeaveReason {
    type Error = UnknownReason;

    ghost try_from_gives = { Decodes };

    fn try_from(code: u64) -> Result<Self, UnknownReason> {
        match code {
            0 => Ok(LeaveReason::Exit),
            1 => Ok(LeaveReason::Block),
            2 => Ok(LeaveReason::Yield),
            3 => Ok(LeaveReason::Quantum),
            4 => Ok(LeaveReason::Preempt),
            5 => Ok(LeaveReason::Forced),
            _ => Err(UnknownReason(code)),
        }
    }
}
