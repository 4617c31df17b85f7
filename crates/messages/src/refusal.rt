//! What a trigger asks for, what a refusal answers, and why it was refused.

ghost use Rattle.std.specs.Prelude.{◌≡◌};
ghost use Rattle.messages.specs.Choices.{act_number, act_numbered, asked_number, asked_numbered, reason_fault, reason_number, reason_numbered};

use fc_base::{Attempt, Fault, JobNo, RunNo};

/// What a server does once the client has the states of a trigger: fio's trigger command, of which
/// this profile has the word `cut` alone.
#[derive(Clone, Copy, Debug, PartialEq, Eq)]
pub enum Act {
    /// Nothing.
    None = 0,
    /// The server is cut off.
    Cut = 1,
}

/// Which request a refusal answers. The discriminants are the numbers of the packets that ask.
#[derive(Clone, Copy, Debug, PartialEq, Eq)]
pub enum RefusedRequest {
    Jobs = 1,
    Start = 3,
    Trigger = 5,
    Stop = 9,
    Verify = 11,
}

/// Why a server refuses: the faults 60 to 67.
#[derive(Clone, Copy, Debug, PartialEq, Eq)]
pub enum Reason {
    /// The run is not above the last one, or the attempt not above the present one.
    Old,
    /// A write is open, or a job of the run has not ended.
    Busy,
    /// The run's jobs were never staged.
    NoJobs,
    /// The run has ended, and its states are gone.
    Gone,
    /// A later run has written the files.
    Overwritten,
    /// This server has never had the run.
    Unknown,
    /// The job file is refused.
    BadJobs,
    /// A verify state doesn't fit the job that reads.
    Misfit,
}

/// A server's refusal of a request: which, why, and of what. `job` and `jobs` are 0 but for a state
/// that doesn't fit, `attempt` is 0 but for a Verify, and `value` is a number that goes with the reason.
#[derive(Clone, Copy, Debug, PartialEq, Eq)]
pub struct Refusal {
    pub asked: RefusedRequest,
    pub reason: Reason,
    pub job: JobNo,
    pub jobs: u32,
    pub run: RunNo,
    pub attempt: Attempt,
    pub value: u64,
}

const ACTS: [Act; 2] = [Act::None, Act::Cut];

const ALL_ASKED: [RefusedRequest; 5] = [
    RefusedRequest::Jobs,
    RefusedRequest::Start,
    RefusedRequest::Trigger,
    RefusedRequest::Stop,
    RefusedRequest::Verify,
];

const REASONS: [Reason; 8] = [
    Reason::Old,
    Reason::Busy,
    Reason::NoJobs,
    Reason::Gone,
    Reason::Overwritten,
    Reason::Unknown,
    Reason::BadJobs,
    Reason::Misfit,
];

impl Act {
    /// The act's number in a frame.
    pub fn number(self) -> u8
        ensures { result ≡ act_number self }
    {
        self as u8
    }

    /// The act with this number in a frame, if there is one.
    #[tactic(auto, unfolding(crate::specs::Choices::act_numbered))]
    pub fn numbered(number: u8) -> Option<Act>
        ensures { result ≡ act_numbered number }
    {
        ACTS.iter().copied().find(|act| act.number() == number)
    }
}

impl RefusedRequest {
    /// The request's number in a frame: that of its packet.
    pub fn number(self) -> u8
        ensures { result ≡ asked_number self }
    {
        self as u8
    }

    /// The request with this number in a frame, if there is one.
    #[tactic(auto, unfolding(crate::specs::Choices::asked_numbered))]
    pub fn numbered(number: u8) -> Option<RefusedRequest>
        ensures { result ≡ asked_numbered number }
    {
        ALL_ASKED
            .iter()
            .copied()
            .find(|asked| asked.number() == number)
    }
}

impl Reason {
    /// The row of the table of faults, which has the number and the name.
    pub fn fault(self) -> Fault
        ensures { result ≡ reason_fault self }
    {
        match self {
            Reason::Old => Fault::Old,
            Reason::Busy => Fault::Busy,
            Reason::NoJobs => Fault::NoJobs,
            Reason::Gone => Fault::Gone,
            Reason::Overwritten => Fault::Overwritten,
            Reason::Unknown => Fault::Unknown,
            Reason::BadJobs => Fault::BadJobs,
            Reason::Misfit => Fault::Misfit,
        }
    }

    /// The reason's number in a frame, 60 to 67.
    pub fn number(self) -> u8
        ensures { result ≡ reason_number self }
    {
        self.fault().number()
    }

    /// The reason with this number in a frame, if there is one.
    #[tactic(auto, unfolding(crate::specs::Choices::reason_numbered))]
    pub fn numbered(number: u8) -> Option<Reason>
        ensures { result ≡ reason_numbered number }
    {
        REASONS
            .iter()
            .copied()
            .find(|reason| reason.number() == number)
    }
}
