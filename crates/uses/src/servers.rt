//! A server takes a frame.

ghost use Rattle.std.specs.Prelude.{◌≡◌, ◌<◌, [], ◌∷◌, map, None, IfOk};
ghost use Rattle.disk_model.specs.MemNotes.{note_of};
ghost use Rattle.disk_model.specs.declared.save_outcome.SaveOutcome.TheVariants.{Saved};
ghost use Rattle.fc_base.specs.declared.limits.TheConstants.{MAX_SERVERS};
ghost use Rattle.messages.specs.FrameBytes.{frame_spelling};
ghost use Rattle.server_core.specs.FrameAnswers.{answered_entry, frames, refusal};
ghost use Rattle.server_core.specs.Hearing.{Restart, packets_heard};
ghost use Rattle.server_core.specs.History.{Opening};
ghost use Rattle.server_core.specs.Note.{Says};
ghost use Rattle.server_core.specs.Words.{words_noted};
ghost use Rattle.server_core.specs.declared.input.Input.TheVariants.{Deliver};

use disk_model::MemNotes;
use fc_base::{Fault, ServerNo};
use messages::{Frame, Frames};
use server_core::{Input, Server};
use std::alloc::Global;

/// What a new server sends to a frame, and the note that it leaves, by the list of what came to it:
/// it was started on a blank note, and then the frame came. An error is that of either.
pub fn first_answer(alloc: Global, me: ServerNo, frame: Frame) -> Result<(Frames, MemNotes), Fault>
    requires { me < MAX_SERVERS }
    ensures free { let opening : Opening = record { me = me; boot = 0; last = 0 } in
        IfOk result (λ _. refusal opening (Restart Saved ∷ []) (Deliver frame) ≡ None) }
    ensures frames { let opening : Opening = record { me = me; boot = 0; last = 0 } in
        let past = Restart Saved ∷ [] in
        IfOk result (λ left. left.0
        ≡ map frame_spelling (frames opening past (answered_entry opening past (Deliver frame)))) }
    ensures note { let opening : Opening = record { me = me; boot = 0; last = 0 } in
        let past = Restart Saved ∷ [] in
        IfOk result (λ left. Says (note_of left.1).bytes
        (words_noted opening (packets_heard opening
        (answered_entry opening past (Deliver frame) ∷ past)))) }
{
    let blank = MemNotes::new(Vec::new(alloc));
    let mut server = match Server::restart(alloc, me, blank) {
        Ok(server) => server,
        Err((_, fault)) => return Err(fault),
    };
    let answer = server.step(Input::Deliver(frame));
    let notes = server.off();
    Ok((answer?.frames, notes))
}
