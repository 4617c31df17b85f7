//! A client begins a run.

ghost use Rattle.std.specs.Prelude.{◌≡◌, ◌≤◌, false, [], ◌∷◌, map, IfOk};
ghost use Rattle.disk_model.specs.MemNotes.{note_of};
ghost use Rattle.fc_base.specs.declared.limits.TheConstants.{MAX_SERVERS};
ghost use Rattle.messages.specs.FrameBytes.{frame_spelling};
ghost use Rattle.client_core.specs.FrameAnswers.{answered_entry, frames};
ghost use Rattle.client_core.specs.Hearing.{Restart, packets_heard};
ghost use Rattle.client_core.specs.History.{Opening};
ghost use Rattle.client_core.specs.Note.{Says, blank};
ghost use Rattle.client_core.specs.Words.{words_noted};
ghost use Rattle.client_core.specs.Inputs.{Begin};

use client_core::Client;
use disk_model::MemNotes;
use fc_base::{Fault, RunNo};
use messages::Frames;
use std::alloc::Global;

/// The first run of a new client of so many servers: its number, what is sent for it to the servers
/// with this job file, and the note that is left, by the list of what came to the client: it was
/// opened on a blank note, without a mirror, and then it was asked to begin. An error is that of
/// either.
pub fn first_run(
    alloc: Global,
    servers: u32,
    text: &[u8],
) -> Result<(RunNo, Frames, MemNotes), Fault>
    requires some { 1 ≤ servers }
    requires few { servers ≤ MAX_SERVERS }
    ensures run { IfOk result (λ left. left.0 ≡ 1) }
    ensures frames { let opening : Opening = record { servers = servers; noted = blank } in
        let past = Restart false ∷ [] in
        IfOk result (λ left. left.1
        ≡ map frame_spelling (frames opening past (answered_entry opening past (Begin text.now)))) }
    ensures note { let opening : Opening = record { servers = servers; noted = blank } in
        let past = Restart false ∷ [] in
        IfOk result (λ left. Says (note_of left.2).bytes
        (words_noted opening (packets_heard opening
        (answered_entry opening past (Begin text.now) ∷ past)))) }
{
    let notes = MemNotes::new(Vec::new(alloc));
    let mut client = match Client::restart(alloc, servers, false, notes) {
        Ok(client) => client,
        Err((_, fault)) => return Err(fault),
    };
    let begun = client.begin(text);
    let notes = client.off();
    let (run, frames) = begun?;
    Ok((run, frames, notes))
}
