//! What a server shows.

ghost use Rattle.std.specs.Prelude.{◌≡◌, List};
ghost use Rattle.std.specs.Option.{option_copied, option_map};

use super::Server;
use crate::progress::Progress;
use crate::status::Status;
use disk_model::Notes;
use engine::Ticket;
use fc_base::{JobNo, Seq, ServerNo};
use job_file::Job;
use verify_state::VerifyState;

impl<N: Notes> Server<N> {
    ghost use Rattle.server_core.specs.History.{Opening};
    ghost use Rattle.server_core.specs.Words.{is_on};
    ghost use Rattle.server_core.specs.Answers.{shown_entries, status, run_job, check_job};
    ghost use Rattle.server_core.specs.Check.{progress};
    ghost use Rattle.server_core.specs.KeptCheck.{progress_of};
    ghost use Rattle.server_core.specs.Taken.{state_taken};
    ghost use Rattle.server_core.specs.OpenWrites.{open_write};
    ghost use Rattle.server_core.specs.Hearing.{FrameEntry, packets_heard};
    ghost use Rattle.server_core.specs.FrameEnds.{StandsFor};

    /// Whether it is on: no save has failed since it was restarted.
    pub fn on(&self) -> bool
        ensures { (opening : Opening) (past : List FrameEntry) →
            StandsFor N.note self.now opening past →
            result ≡ is_on (packets_heard opening past) }
    {
        !self.hearer.core.durable.is_down()
    }

    /// Its number.
    pub fn me(&self) -> ServerNo
        ensures { (opening : Opening) (past : List FrameEntry) →
            StandsFor N.note self.now opening past →
            result ≡ opening.me }
    {
        self.hearer.core.machine.me
    }

    /// How far it is: up to a failed save, where one has failed. Its boot and its last run are those of
    /// the note.
    pub fn status(&self) -> Status
        ensures { (opening : Opening) (past : List FrameEntry) →
            StandsFor N.note self.now opening past →
            result ≡ status opening (shown_entries (packets_heard opening past)) }
    {
        self.hearer.core.machine.status()
    }

    /// A job of the present run: of that up to a failed save, where one has failed.
    pub fn run_job(&self, job: JobNo) -> Option<&Job>
        ensures { (opening : Opening) (past : List FrameEntry) →
            StandsFor N.note self.now opening past →
            option_copied result ≡ run_job opening
            (shown_entries (packets_heard opening past)) job }
    {
        self.hearer.core.machine.run_job(job)
    }

    /// The state that was taken of a job of the present run: up to a failed save, where one has failed.
    pub fn taken(&self, job: JobNo) -> Option<&VerifyState>
        ensures { (opening : Opening) (past : List FrameEntry) →
            StandsFor N.note self.now opening past →
            option_copied result ≡ state_taken opening
            (shown_entries (packets_heard opening past)) job }
    {
        self.hearer.core.machine.taken(job)
    }

    /// The ticket of this write of a job of the present run, where it is open, issued and neither done nor
    /// failed: up to a failed save, where one has failed.
    pub fn open_write(&self, job: JobNo, write: Seq) -> Option<Ticket>
        ensures { (opening : Opening) (past : List FrameEntry) →
            StandsFor N.note self.now opening past →
            result ≡ open_write opening (shown_entries (packets_heard opening past)) job write }
    {
        self.hearer.core.machine.open_write(job, write)
    }

    /// A job of the open check: of that up to a failed save, where one has failed.
    pub fn check_job(&self, job: JobNo) -> Option<&Job>
        ensures { (opening : Opening) (past : List FrameEntry) →
            StandsFor N.note self.now opening past →
            option_copied result ≡ check_job opening
            (shown_entries (packets_heard opening past)) job }
    {
        self.hearer.core.machine.check_job(job)
    }

    /// How far the check of a job is, where it is one of the open check: of that up to a failed save, where
    /// one has failed.
    pub fn check_progress(&self, job: JobNo) -> Option<&Progress>
        ensures { (opening : Opening) (past : List FrameEntry) →
            StandsFor N.note self.now opening past →
            option_map progress_of (option_copied result)
            ≡ progress opening (shown_entries (packets_heard opening past)) job }
    {
        self.hearer.core.machine.check_progress(job)
    }
}
