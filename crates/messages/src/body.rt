//! What a packet says.

ghost use Rattle.std.specs.Prelude.{◌≡◌};

use crate::kind::PacketKind;
use crate::piece::Tag;
use crate::ranges::{
    is_attempt, is_generation, is_job, is_job_of, is_jobs, is_refusal, is_run, is_server_no,
};
use crate::refusal::{Act, Refusal};
use crate::text::Text;
use fc_base::{Attempt, CheckReport, Generation, JobNo, Key, MAX_TEXT, RunNo, ServerNo};
use verify_state::VerifyState;

/// What a packet says, by kind, before its ranges are checked: a packet's own body keeps them. Runs
/// and attempts count from 1, `jobs` says how many jobs a file has, 1 to 16, and a job is below
/// `jobs`, or below 16 where there is none.
#[derive(Drop)]
pub enum Body {
    /// The client: stage this job file.
    Jobs {
        run: RunNo,
        text: Text,
    },
    /// A server: the job file is staged.
    JobsOk {
        run: RunNo,
        jobs: u32,
    },
    /// The client: begin to write.
    Start {
        run: RunNo,
    },
    /// A server: it has begun.
    Started {
        run: RunNo,
    },
    /// The client: store the verify state of each job, and then act.
    Trigger {
        run: RunNo,
        act: Act,
    },
    /// A server: the verify state of a job, which names the run, the server and the job.
    State {
        jobs: u32,
        state: VerifyState,
    },
    /// A server: this job stores no state (fio's `verify_state_save=0`).
    NoState {
        run: RunNo,
        job: JobNo,
        jobs: u32,
    },
    /// The client: the state is kept, or needn't be.
    StateAck {
        run: RunNo,
        job: JobNo,
    },
    /// The client: issue no more writes.
    Stop {
        run: RunNo,
    },
    /// A server: none is issued any more.
    Stopped {
        run: RunNo,
    },
    /// The client: check the files by this job file.
    Verify {
        run: RunNo,
        attempt: Attempt,
        text: Text,
    },
    /// A server: this job loads its state (fio's `verify_state_load`).
    WantState {
        run: RunNo,
        attempt: Attempt,
        job: JobNo,
    },
    /// The client: the state that it keeps.
    Saved {
        attempt: Attempt,
        state: VerifyState,
    },
    /// The client: it keeps none.
    NoSaved {
        run: RunNo,
        attempt: Attempt,
        job: JobNo,
    },
    /// A server: what the check of a job found.
    Report {
        run: RunNo,
        attempt: Attempt,
        job: JobNo,
        jobs: u32,
        report: CheckReport,
    },
    /// A server: it refuses.
    Refused(Refusal),
    /// The client or the mirror: keep this state, which I keep.
    Copy {
        state: VerifyState,
    },
    /// The mirror: the state with this key is kept.
    CopyOk {
        run: RunNo,
        server: ServerNo,
        job: JobNo,
    },
    /// The client: grant me this generation, and send every state that you keep.
    Fetch {
        generation: Generation,
    },
    /// The mirror: it has no higher generation, and the states follow.
    Granted {
        generation: Generation,
    },
}

/// The key of what has a run alone.
fn key_of(run: RunNo) -> Key
    ensures { result ≡ record { run = run; server = 0; job = 0 } }
{
    Key {
        run,
        server: ServerNo(0),
        job: JobNo(0),
    }
}

impl Body {
    ghost use Rattle.messages.specs.Pieces.{tag_in};
    ghost use Rattle.messages.specs.Bodies.{kind_of};
    ghost use Rattle.messages.specs.Ranges.{is_body, KeepsState};

    /// The kind.
    pub fn kind(&self) -> PacketKind
        ensures { result ≡ kind_of self.now }
    {
        match self {
            Body::Jobs { .. } => PacketKind::Jobs,
            Body::JobsOk { .. } => PacketKind::JobsOk,
            Body::Start { .. } => PacketKind::Start,
            Body::Started { .. } => PacketKind::Started,
            Body::Trigger { .. } => PacketKind::Trigger,
            Body::State { .. } => PacketKind::State,
            Body::NoState { .. } => PacketKind::NoState,
            Body::StateAck { .. } => PacketKind::StateAck,
            Body::Stop { .. } => PacketKind::Stop,
            Body::Stopped { .. } => PacketKind::Stopped,
            Body::Verify { .. } => PacketKind::Verify,
            Body::WantState { .. } => PacketKind::WantState,
            Body::Saved { .. } => PacketKind::Saved,
            Body::NoSaved { .. } => PacketKind::NoSaved,
            Body::Report { .. } => PacketKind::Report,
            Body::Refused(_) => PacketKind::Refused,
            Body::Copy { .. } => PacketKind::Copy,
            Body::CopyOk { .. } => PacketKind::CopyOk,
            Body::Fetch { .. } => PacketKind::Fetch,
            Body::Granted { .. } => PacketKind::Granted,
        }
    }

    /// Whether every number is in its range, so that a packet can be made of the body.
    pub fn is_in_range(&self) -> bool
        ensures { result ≡ is_body self.now }
    {
        match self {
            Body::Jobs { run, text } => is_run(*run) && text.as_slice().len() <= MAX_TEXT,
            Body::JobsOk { run, jobs } => is_run(*run) && is_jobs(*jobs),
            Body::Start { run }
            | Body::Started { run }
            | Body::Stop { run }
            | Body::Stopped { run } => is_run(*run),
            Body::Trigger { run, .. } => is_run(*run),
            Body::State { jobs, state } => is_job_of(state.key().job, *jobs),
            Body::NoState { run, job, jobs } => is_run(*run) && is_job_of(*job, *jobs),
            Body::StateAck { run, job } => is_run(*run) && is_job(*job),
            Body::Verify { run, attempt, text } => {
                is_run(*run) && is_attempt(*attempt) && text.as_slice().len() <= MAX_TEXT
            }
            Body::Saved { attempt, .. } => is_attempt(*attempt),
            Body::WantState { run, attempt, job } | Body::NoSaved { run, attempt, job } => {
                is_run(*run) && is_attempt(*attempt) && is_job(*job)
            }
            Body::Report {
                run,
                attempt,
                job,
                jobs,
                report,
            } => {
                is_run(*run)
                    && is_attempt(*attempt)
                    && is_job_of(*job, *jobs)
                    && report.parts().is_report()
            }
            Body::Refused(refusal) => is_refusal(refusal),
            Body::Copy { .. } => true,
            Body::CopyOk { run, server, job } => {
                is_run(*run) && is_server_no(*server) && is_job(*job)
            }
            Body::Fetch { generation } | Body::Granted { generation } => is_generation(*generation),
        }
    }

    /// The tag of the pieces of this body, where it has so many bytes.
    pub(crate) fn tag(&self, length: u32) -> Tag
        ensures { result ≡ tag_in self.now length }
    {
        let (key, number) = match self {
            Body::Jobs { run, .. } => (key_of(*run), 0),
            Body::State { state, .. } => (state.key(), 0),
            Body::Verify { run, attempt, .. } => (key_of(*run), attempt.0),
            Body::Saved { attempt, state } => (state.key(), attempt.0),
            _ => (key_of(RunNo(0)), 0),
        };
        Tag {
            whole: self.kind(),
            run: key.run,
            number,
            server: key.server,
            job: key.job,
            length,
        }
    }

    /// A body's state keeps its ranges. Nothing runs: this is for proofs.
    pub(crate) fn keeps_its_state(&self)
        ensures { KeepsState self.now }
    {
        if let Body::State { state, .. } | Body::Saved { state, .. } | Body::Copy { state } = self {
            state.keeps_its_ranges();
        }
    }
}
