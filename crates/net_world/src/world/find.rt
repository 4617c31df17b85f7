//! What a world finds in its servers.

ghost use Rattle.std.specs.Prelude.{◌≡◌, List, Some, IfOk, IfErr};
ghost use Rattle.server_core.specs.Answers.{is_ready};
ghost use Rattle.server_core.specs.KeptCheck.{progress_of};
ghost use Rattle.net_world.specs.Setup.{Setup};
ghost use Rattle.net_world.specs.Changes.{Change};
ghost use Rattle.net_world.specs.Finding.{IsRunning, IsAway, FindsWrite, FindsReady, state_of};
ghost use Rattle.net_world.specs.Stands.{StandsFor};

use super::World;
use crate::ready::Ready;
use crate::server_node;
use disk_model::MemNotes;
use engine::Ticket;
use fc_base::{Fault, JobNo, JobRecord, Key, Seq, ServerNo};
use server_core::{
    Progress, Server, legal_histories, looks_at_all, open_check_is_last, tickets_tell_origins,
};
use verify_state::VerifyState;

impl World {
    /// The server of this number, which runs.
    ///
    /// `NoServer`, `NodeOff`.
    #[inline(always)]
    fn running(&self, server: ServerNo) -> Result<&Server<MemNotes>, Fault>
        ensures found { (w : Setup) (past : List Change) → StandsFor w past self.now →
            IfOk result (λ core. IsRunning w past server core.now) }
        ensures why { (w : Setup) (past : List Change) → StandsFor w past self.now →
            IfErr result (IsAway w past server) }
    {
        if !self.has_server(server) {
            return Err(Fault::NoServer);
        }
        server_node::server(&self.servers[server.0 as usize]).ok_or(Fault::NodeOff)
    }

    /// The ticket of a write that is open, and what its job does.
    ///
    /// `NoServer`, `NodeOff`, `NoWrite`.
    #[inline(always)]
    pub(super) fn open_write(
        &self,
        server: ServerNo,
        job: JobNo,
        write: Seq,
    ) -> Result<(Ticket, JobRecord), Fault>
        ensures { (w : Setup) (past : List Change) → StandsFor w past self.now →
            FindsWrite w past server job write result }
    {
        looks_at_all();
        tickets_tell_origins();
        legal_histories();
        let core = self.running(server)?;
        let Some(ticket) = core.open_write(job, write) else {
            return Err(Fault::NoWrite);
        };
        match core.run_job(job) {
            Some(job) => Ok((ticket, job.rec)),
            None => Err(Fault::NoWrite),
        }
    }

    /// A job that is ready to be checked.
    ///
    /// `NoServer`, `NodeOff`; `NotInFlight`: it isn't ready.
    pub(super) fn ready(&self, server: ServerNo, job: JobNo) -> Result<Ready, Fault>
        ensures { (w : Setup) (past : List Change) → StandsFor w past self.now →
            FindsReady w past server job result }
    {
        looks_at_all();
        open_check_is_last();
        legal_histories();
        let core = self.running(server)?;
        let Some(checked) = core.check_job(job) else {
            return Err(Fault::NotInFlight);
        };
        let Some(progress) = core.check_progress(job) else {
            return Err(Fault::NotInFlight);
        };
        if !is_ready(progress) {
            return Err(Fault::NotInFlight);
        }
        let status = core.status();
        Ok(Ready {
            boot: status.boot,
            attempt: status.attempt,
            key: Key {
                run: status.last_run,
                server,
                job,
            },
            rec: checked.rec,
            fatal: checked.fatal,
            state: state_of(progress),
        })
    }
}

/// Whether the check of a job may be made.
fn is_ready(progress: &Progress) -> bool
    ensures { result ≡ is_ready (Some (progress_of progress.now)) }
{
    matches!(progress, Progress::Full | Progress::With(_))
}

/// The state with which it is made.
fn state_of(progress: &Progress) -> Option<VerifyState>
    ensures { result ≡ state_of (progress_of progress.now) }
{
    match progress {
        Progress::With(state) => Some(*state),
        _ => None,
    }
}
