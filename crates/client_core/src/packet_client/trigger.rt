//! A run is triggered, or stopped.

ghost use Rattle.std.specs.Prelude.{◌≡◌, not, List, None, IsTrue};
ghost use Rattle.node.specs.Steps.{Ends};
ghost use Rattle.client_core.specs.Inputs.{Trigger, Stop};
ghost use Rattle.client_core.specs.Ends.{steps};
ghost use Rattle.messages.specs.Ranges.{is_run};
ghost use Rattle.client_core.specs.History.{Opening, Entry};
ghost use Rattle.client_core.specs.Refusals.{refusal_by};
ghost use Rattle.client_core.specs.Stands.{StandsFor};

use super::PacketClient;
use crate::frames::to_all;
use crate::refusal::is_begun;
use disk_model::Notes;
use fc_base::{Fault, RunNo};
use messages::{Act, Body, Frames};

impl<N: Notes> PacketClient<N> {
    /// Triggers the verify states of a run at each server, which then is to do this.
    ///
    /// In this order: `Down`; `NoSuchRun`; `NoMemory`, and nothing changes.
    pub(crate) fn trigger(&mut self, run: RunNo, act: Act) -> Result<Frames, Fault>
        ensures { (opening : Opening) (past : List Entry) → StandsFor N.note self.old opening past →
            Ends (steps N.note opening) past (Trigger run act) self.old self.new result }
    {
        if let Some(fault) = self.run_refusal(run) {
            return Err(fault);
        }
        let Ok(frames) = to_all(
            self.alloc,
            self.peers.servers.count(),
            Body::Trigger { run, act },
        ) else {
            return Err(Fault::NoMemory);
        };
        if self.life.make_room_for_run(run).is_err() {
            return Err(Fault::NoMemory);
        }
        self.life.trigger(run, act);
        Ok(frames)
    }

    /// Stops a run at each server, which issues no more writes of it.
    ///
    /// In this order: `Down`; `NoSuchRun`; `NoMemory`, and nothing changes.
    pub(crate) fn stop(&mut self, run: RunNo) -> Result<Frames, Fault>
        ensures { (opening : Opening) (past : List Entry) → StandsFor N.note self.old opening past →
            Ends (steps N.note opening) past (Stop run) self.old self.new result }
    {
        if let Some(fault) = self.run_refusal(run) {
            return Err(fault);
        }
        let Ok(frames) = to_all(self.alloc, self.peers.servers.count(), Body::Stop { run }) else {
            return Err(Fault::NoMemory);
        };
        if self.life.make_room_for_run(run).is_err() {
            return Err(Fault::NoMemory);
        }
        self.life.stop(run);
        Ok(frames)
    }

    /// Why a run isn't triggered or stopped.
    fn run_refusal(&self, run: RunNo) -> Option<Fault>
        ensures why { result
            ≡ refusal_by (not self.now.durable.down) self.now.peers self.now.noted (Stop run) }
        ensures range { result ≡ None → IsTrue (is_run run) }
    {
        if self.durable.is_down() {
            return Some(Fault::Down);
        }
        if !is_begun(&self.noted, run) {
            return Some(Fault::NoSuchRun);
        }
        None
    }
}
