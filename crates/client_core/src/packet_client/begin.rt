//! A run begins.

ghost use Rattle.std.specs.Prelude.{◌≡◌, ◌≤◌, not, List, IsTrue, IfOk};
ghost use Rattle.fc_base.specs.declared.limits.TheConstants.{MAX_SERVERS};
ghost use Rattle.node.specs.Steps.{EndsWithNumber};
ghost use Rattle.client_core.specs.Inputs.{Begin};
ghost use Rattle.client_core.specs.Ends.{steps};
ghost use Rattle.messages.specs.Ranges.{is_run, is_text};
ghost use Rattle.messages.specs.declared.body.Body.TheVariants.{Jobs};
ghost use Rattle.client_core.specs.Framed.{frame_bytes};
ghost use Rattle.client_core.specs.Packets.{to_all};
ghost use Rattle.client_core.specs.History.{Opening, Entry};
ghost use Rattle.client_core.specs.Refusals.{refusal_by};
ghost use Rattle.client_core.specs.Stands.{StandsFor};
ghost use Rattle.client_core.specs.Words.{words_noted, would_save};

use super::PacketClient;
use crate::frames::to_all;
use crate::note::notes_are_read_back;
use crate::refusal::{has_next, is_text};
use disk_model::Notes;
use fc_base::{Fault, RunNo};
use messages::{Body, Frames, Text};
use std::alloc::{AllocError, Global};

impl<N: Notes> PacketClient<N> {
    /// Begins a run with this job file at each server. Its number is saved before it is used.
    ///
    /// In this order: `Down`; `JobTooLong`; `NumbersSpent`; `NoMemory`, and nothing changes; `SaveFault`,
    /// and the client is down.
    pub(crate) fn begin(&mut self, text: &[u8]) -> Result<(RunNo, Frames), Fault>
        ensures { (opening : Opening) (past : List Entry) → StandsFor N.note self.old opening past →
            EndsWithNumber (steps N.note opening) past (Begin text.now)
            (words_noted opening past).runs
            self.old self.new result }
    {
        notes_are_read_back();
        if let Some(fault) = self.begin_refusal(text) {
            return Err(fault);
        }
        let run = RunNo(self.noted.runs + 1);
        let Ok((frames, text)) = begin_frames(self.alloc, self.peers.servers.count(), run, text)
        else {
            return Err(Fault::NoMemory);
        };
        if self.life.make_room_for_run(run).is_err() {
            return Err(Fault::NoMemory);
        }
        self.use_run()?;
        self.life.begin(run, text);
        Ok((run, frames))
    }

    /// Whether a run with this job file would be begun, and so make a save.
    pub(crate) fn begin_would_save(&self, text: &[u8]) -> bool
        ensures { (opening : Opening) (past : List Entry) → StandsFor N.note self.now opening past →
            result ≡ would_save opening past (Begin text.now) }
    {
        self.begin_refusal(text).is_none()
    }

    /// Why a run with this job file isn't begun.
    fn begin_refusal(&self, text: &[u8]) -> Option<Fault>
        ensures { result
            ≡ refusal_by (not self.now.durable.down) self.now.peers self.now.noted
            (Begin text.now) }
    {
        if self.durable.is_down() {
            return Some(Fault::Down);
        }
        if !is_text(text) {
            return Some(Fault::JobTooLong);
        }
        if !has_next(&self.peers, self.noted.generation, self.noted.runs) {
            return Some(Fault::NumbersSpent);
        }
        None
    }
}

/// The frames that begin a run, and its text to keep.
fn begin_frames(
    alloc: Global,
    servers: u32,
    run: RunNo,
    text: &[u8],
) -> Result<(Frames, Text), AllocError>
    requires few { servers ≤ MAX_SERVERS }
    requires run { IsTrue (is_run run) }
    requires text { IsTrue (is_text text.now) }
    ensures frames { IfOk result (λ b. b.0 ≡ frame_bytes (to_all servers (Jobs run text.now))) }
    ensures text { IfOk result (λ b. b.1 ≡ text.now) }
{
    let sent = Text::copied(alloc, text)?;
    let frames = to_all(alloc, servers, Body::Jobs { run, text: sent })?;
    Ok((frames, Text::copied(alloc, text)?))
}
