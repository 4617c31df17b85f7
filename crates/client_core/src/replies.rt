//! What a client replies to a server.

ghost use Rattle.std.specs.Prelude.{◌≡◌, ◌<◌, ◌≤◌, [], ◌∷◌, length, IsTrue, IfOk};
ghost use Rattle.fc_base.specs.declared.limits.TheConstants.{MAX_SERVERS, MAX_TEXT};
ghost use Rattle.messages.specs.Ranges.{is_body, is_run};
ghost use Rattle.messages.specs.declared.body.Body.TheVariants.{WantState};
ghost use Rattle.client_core.specs.Framed.{frame_bytes};
ghost use Rattle.client_core.specs.Lives.{EachLife};
ghost use Rattle.client_core.specs.Packets.{replies, start_for, jobs_once_more, state_for};
ghost use Rattle.verify_state.specs.StateTable.{kept_of};

use crate::beginning::Beginning;
use crate::frames::{only, say_copy};
use crate::life::Life;
use crate::note::ClientNote;
use fc_base::{Attempt, JobNo, Key, RunNo, ServerNo};
use messages::{Body, Frames, Reason, RefusedRequest, Text};
use std::alloc::{AllocError, Global};

/// What is replied to a server that says this.
pub(crate) fn replies(
    alloc: Global,
    mirror: bool,
    noted: &ClientNote,
    life: &Life,
    server: u32,
    body: &Body,
) -> Result<Frames, AllocError>
    requires server { server < MAX_SERVERS }
    requires body { IsTrue (is_body body.now) }
    ensures { EachLife life.now
        (λ deeds. IfOk result
        (λ frames. frames ≡ frame_bytes (replies mirror noted.now deeds server body.now))) }
{
    match body {
        Body::JobsOk { run, .. } => start_for(alloc, *run, server, life.begin_at(*run, server)),
        Body::State { state, .. } => {
            let Key { run, job, .. } = state.key();
            let mut frames = only(alloc, server, Body::StateAck { run, job })?;
            if mirror && !noted.kept.has(state.key()) {
                say_copy(alloc, state, &mut frames)?;
            }
            Ok(frames)
        }
        Body::NoState { run, job, .. } => {
            let (run, job) = (*run, *job);
            only(alloc, server, Body::StateAck { run, job })
        }
        Body::WantState { run, attempt, job } => {
            state_for(alloc, noted, *run, *attempt, *job, server)
        }
        Body::Refused(refusal) => match (refusal.asked, refusal.reason) {
            (RefusedRequest::Start, Reason::NoJobs) => {
                let run = refusal.run;
                let begin = life.begin_at(run, server);
                jobs_for(alloc, run, life.text_of(run), server, begin)
            }
            _ => Ok(Frames::new(alloc)),
        },
        _ => Ok(Frames::new(alloc)),
    }
}

/// The start of a run, where its jobs were open.
fn start_for(alloc: Global, run: RunNo, server: u32, begin: Beginning) -> Result<Frames, AllocError>
    requires server { server < MAX_SERVERS }
    requires run { IsTrue (is_run run) }
    ensures { IfOk result (λ frames. frames ≡ frame_bytes (start_for run server begin)) }
{
    match begin {
        Beginning::Staging => only(alloc, server, Body::Start { run }),
        _ => Ok(Frames::new(alloc)),
    }
}

/// The jobs of a run again, where its start was open.
fn jobs_for(
    alloc: Global,
    run: RunNo,
    text: &[u8],
    server: u32,
    begin: Beginning,
) -> Result<Frames, AllocError>
    requires server { server < MAX_SERVERS }
    requires run { IsTrue (is_run run) }
    requires text { length text.now ≤ MAX_TEXT }
    ensures { IfOk result
        (λ frames. frames ≡ frame_bytes (jobs_once_more run text.now server begin)) }
{
    match begin {
        Beginning::Starting => {
            let text = Text::copied(alloc, text)?;
            only(alloc, server, Body::Jobs { run, text })
        }
        _ => Ok(Frames::new(alloc)),
    }
}

/// The kept state that a check asks for, or that there is none.
fn state_for(
    alloc: Global,
    noted: &ClientNote,
    run: RunNo,
    attempt: Attempt,
    job: JobNo,
    server: u32,
) -> Result<Frames, AllocError>
    requires server { server < MAX_SERVERS }
    requires body { IsTrue (is_body (WantState run attempt job)) }
    ensures { IfOk result (λ frames. frames ≡ frame_bytes (state_for run attempt job server
        (kept_of (record { run = run; server = server; job = job }) noted.now.kept) ∷ [])) }
{
    let key = Key {
        run,
        server: ServerNo(server),
        job,
    };
    let body = match noted.kept.get(key) {
        Some(state) => Body::Saved {
            attempt,
            state: *state,
        },
        None => Body::NoSaved { run, attempt, job },
    };
    only(alloc, server, body)
}
