//! The checks of a world.

ghost use Rattle.std.specs.Prelude.{List};
ghost use Rattle.net_world.specs.Setup.{Setup};
ghost use Rattle.net_world.specs.Changes.{Change};
ghost use Rattle.net_world.specs.Ends.{Ends};
ghost use Rattle.net_world.specs.Happenings.{Check};
ghost use Rattle.net_world.specs.Stands.{StandsFor};

use super::{World, place_of};
use crate::told::{BoxedReport, Told, WorldAnswer};
use fc_base::{Fault, JobNo, ServerNo};
use recheck::check_disk;
use server_core::Input;

impl World {
    /// The file of a job is checked, and its server is told the report.
    ///
    /// `NotInFlight`: the job isn't ready to be checked.
    pub(super) fn check(&mut self, server: ServerNo, job: JobNo) -> Result<Told, Fault>
        ensures { (w : Setup) (past : List Change) → StandsFor w past self.old →
            Ends w past (Check server job) self.new result }
    {
        let ready = self.ready(server, job)?;
        // A job that is ready has a file.
        if !self.has_file(server, job) {
            return Err(Fault::NotInFlight);
        }
        let Ok(report) = check_disk(
            self.alloc,
            &ready.rec,
            ready.key,
            ready.state.as_ref(),
            ready.fatal,
            &mut self.files[place_of(server, job)],
        ) else {
            return Err(Fault::NoMemory);
        };
        let Ok(boxed) = BoxedReport::new(self.alloc, report) else {
            return Err(Fault::NoMemory);
        };
        let done = Input::CheckDone {
            boot: ready.boot,
            attempt: ready.attempt,
            job,
            report,
        };
        match self.serve(server, done) {
            Ok(told) => Ok(told.with_answer(WorldAnswer::Checked(boxed))),
            Err(fault) => Err(fault),
        }
    }
}
