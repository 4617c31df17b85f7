//! An attempt verifies a run.

ghost use Rattle.std.specs.Prelude.{◌≡◌, ◌≤◌, ◌∷◌, not, List, None, IsTrue, IfOk};
ghost use Rattle.fc_base.specs.declared.limits.TheConstants.{MAX_SERVERS};
ghost use Rattle.node.specs.Steps.{EndsWithNumber};
ghost use Rattle.client_core.specs.Inputs.{Verify as Verifying};
ghost use Rattle.client_core.specs.Ends.{steps};
ghost use Rattle.messages.specs.Ranges.{is_attempt, is_run, is_text};
ghost use Rattle.messages.specs.declared.body.Body.TheVariants.{Verify};
ghost use Rattle.client_core.specs.Framed.{frame_bytes};
ghost use Rattle.client_core.specs.Life.{Deed, Verifies};
ghost use Rattle.client_core.specs.Lives.{AttemptIs};
ghost use Rattle.client_core.specs.Packets.{to_all};
ghost use Rattle.client_core.specs.History.{Opening, Entry};
ghost use Rattle.client_core.specs.Refusals.{refusal_by};
ghost use Rattle.client_core.specs.Stands.{StandsFor};
ghost use Rattle.client_core.specs.Words.{words_noted, would_save};

use super::PacketClient;
use crate::attempt_asked::AttemptAsked;
use crate::frames::to_all;
use crate::note::notes_are_read_back;
use crate::refusal::{has_next, is_begun, is_text};
use disk_model::Notes;
use fc_base::{Attempt, Fault, RunNo};
use messages::{Body, Frames, Text};
use std::alloc::{AllocError, Global};

impl<N: Notes> PacketClient<N> {
    /// Checks the files of a run by this job file at each server. The attempt's number is saved before
    /// it is used.
    ///
    /// In this order: `Down`; `NoSuchRun`; `JobTooLong`; `NumbersSpent`; `NoMemory`, and nothing changes;
    /// `SaveFault`, and the client is down.
    pub(crate) fn verify(&mut self, run: RunNo, text: &[u8]) -> Result<(Attempt, Frames), Fault>
        ensures { (opening : Opening) (past : List Entry) → StandsFor N.note self.old opening past →
            EndsWithNumber (steps N.note opening) past (Verifying run text.now)
            (words_noted opening past).attempts self.old self.new result }
    {
        notes_are_read_back();
        if let Some(fault) = self.verify_refusal(run, text) {
            return Err(fault);
        }
        let attempt = Attempt(self.noted.attempts + 1);
        let servers = self.peers.servers.count();
        let Ok((frames, asked)) = verify_frames(self.alloc, servers, run, attempt, text) else {
            return Err(Fault::NoMemory);
        };
        if self.life.make_room_for_attempt(attempt).is_err() {
            return Err(Fault::NoMemory);
        }
        self.use_attempt()?;
        self.life.verify(attempt, asked);
        Ok((attempt, frames))
    }

    /// Whether a run would be verified by this job file, and so make a save.
    pub(crate) fn verify_would_save(&self, run: RunNo, text: &[u8]) -> bool
        ensures { (opening : Opening) (past : List Entry) → StandsFor N.note self.now opening past →
            result ≡ would_save opening past (Verifying run text.now) }
    {
        self.verify_refusal(run, text).is_none()
    }

    /// Why a run isn't verified by this job file.
    fn verify_refusal(&self, run: RunNo, text: &[u8]) -> Option<Fault>
        ensures why { result
            ≡ refusal_by (not self.now.durable.down) self.now.peers self.now.noted
            (Verifying run text.now) }
        ensures range { result ≡ None → IsTrue (is_run run) }
    {
        if self.durable.is_down() {
            return Some(Fault::Down);
        }
        if !is_begun(&self.noted, run) {
            return Some(Fault::NoSuchRun);
        }
        if !is_text(text) {
            return Some(Fault::JobTooLong);
        }
        if !has_next(&self.peers, self.noted.generation, self.noted.attempts) {
            return Some(Fault::NumbersSpent);
        }
        None
    }
}

/// The frames that verify a run, and what is to be kept of the attempt.
fn verify_frames(
    alloc: Global,
    servers: u32,
    run: RunNo,
    attempt: Attempt,
    text: &[u8],
) -> Result<(Frames, AttemptAsked), AllocError>
    requires few { servers ≤ MAX_SERVERS }
    requires run { IsTrue (is_run run) }
    requires attempt { IsTrue (is_attempt attempt) }
    requires text { IsTrue (is_text text.now) }
    ensures frames { IfOk result
        (λ b. b.0 ≡ frame_bytes (to_all servers (Verify run attempt text.now))) }
    ensures asked { IfOk result (λ b. (deeds : List Deed) →
        AttemptIs attempt (Verifies run attempt text.now ∷ deeds) b.1) }
    ensures run_is { IfOk result (λ b. b.1.run ≡ run) }
    ensures text_is { IfOk result (λ b. b.1.text ≡ text.now) }
{
    let sent = Text::copied(alloc, text)?;
    let frames = to_all(
        alloc,
        servers,
        Body::Verify {
            run,
            attempt,
            text: sent,
        },
    )?;
    let kept = Text::copied(alloc, text)?;
    let asked = AttemptAsked::new(run, kept);
    Ok((frames, asked))
}
