//! A job of the present run.

ghost use Rattle.std.specs.Prelude.{◌≡◌, None, false};
ghost use Rattle.server_core.specs.Kept.{state_kept, taken_kept, stopped_kept};

use engine::{Engine, Ticket};
use fc_base::JobNo;
use messages::Act;
use verify_state::VerifyState;

/// How a run came to its end.
#[derive(Clone, Copy, PartialEq, Eq)]
pub(crate) enum End {
    /// A Trigger took the states of its jobs, and asked for this.
    Taken(Act),
    /// It was stopped.
    Stopped,
}

/// What is kept of a job of the present run.
#[derive(Drop)]
pub(crate) struct JobRun {
    pub engine: Engine,
    /// Whether a Trigger takes its state.
    pub save: bool,
    /// The state that was taken.
    pub taken: Option<VerifyState>,
    /// Whether the client has told that the state is kept, or needn't be.
    pub marked: bool,
}

impl JobRun {
    /// A job that begins.
    pub(crate) fn new(engine: Engine, save: bool) -> JobRun
        ensures { result ≡ record { engine = engine; save = save; taken = None; marked = false } }
    {
        JobRun {
            engine,
            save,
            taken: None,
            marked: false,
        }
    }

    /// The state that was taken, else that of now; `None` where the job saves none.
    pub(crate) fn state(&self) -> Option<VerifyState>
        ensures { result ≡ state_kept self.now }
    {
        match self.taken {
            Some(state) => Some(state),
            None if self.save => Some(self.engine.take()),
            None => None,
        }
    }

    /// Stops the job.
    pub(crate) fn stop(&mut self)
        ensures { self.new ≡ stopped_kept self.old }
    {
        self.engine.stop();
    }

    /// Takes the state, and stops the job.
    pub(crate) fn take(&mut self)
        ensures { self.new ≡ taken_kept self.old }
    {
        self.taken = self.state();
        self.stop();
    }
}

/// The index of a job in a list of all jobs.
pub(crate) fn index_of(job: JobNo) -> usize
    ensures { result ≡ job }
{
    job.0 as usize
}

/// The index of the job of a ticket.
pub(crate) fn index_in(ticket: &Ticket) -> usize
    ensures { result ≡ ticket.now.key.job }
{
    ticket.key.job.0 as usize
}
