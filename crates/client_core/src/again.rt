//! What isn't answered is asked again.

ghost use Rattle.std.specs.Prelude.{◌≡◌, ◌≤◌, ◌++◌, List, OnOk, Some, IfOk};
ghost use Rattle.std.specs.List.{flat_map};
ghost use Rattle.fc_base.specs.declared.limits.TheConstants.{MAX_SERVERS};
ghost use Rattle.client_core.specs.Framed.{frame_bytes};
ghost use Rattle.client_core.specs.Life.{Deed};
ghost use Rattle.client_core.specs.Lives.{RunIs, AttemptFor, EachLife};
ghost use Rattle.client_core.specs.Packets.{run_again, attempt_again, requests_again};

use crate::attempt_asked::AttemptAsked;
use crate::frames::{begin_again, say_again};
use crate::life::Life;
use crate::run_asked::RunAsked;
use fc_base::{Attempt, RunNo};
use messages::{Body, Frames, Text};
use std::alloc::{AllocError, Global};

impl Life {
    /// Asks again, at so many servers, for all that isn't answered: by run, and then by attempt.
    pub(crate) fn requests_again(&self, alloc: Global, servers: u32) -> Result<Frames, AllocError>
        requires { servers ≤ MAX_SERVERS }
        ensures { EachLife self.now
            (λ deeds. IfOk result (λ frames. frames ≡ frame_bytes (requests_again servers deeds))) }
    {
        let _runs = self.runs.len();
        let _attempts = self.attempts.len();
        let mut frames = Frames::new(alloc);
        self.runs_again(alloc, servers, &mut frames)?;
        self.attempts_again(alloc, servers, &mut frames)?;
        Ok(frames)
    }

    /// Asks again, at so many servers, for all that isn't answered of the runs.
    pub(crate) fn runs_again(
        &self,
        alloc: Global,
        servers: u32,
        frames: &mut Frames,
    ) -> Result<(), AllocError>
        requires { servers ≤ MAX_SERVERS }
        ensures { EachLife self.now (λ deeds. OnOk result (frames.new ≡ frames.old
            ++ frame_bytes (flat_map (λ e. run_again servers deeds e.0) self.now.runs.entries))) }
    {
        for (run, asked) in self.runs.iter() {
            run_again(alloc, servers, RunNo(*run), asked, frames)?;
        }
        Ok(())
    }

    /// Asks again, at so many servers, for all that isn't answered of the attempts.
    pub(crate) fn attempts_again(
        &self,
        alloc: Global,
        servers: u32,
        frames: &mut Frames,
    ) -> Result<(), AllocError>
        requires { servers ≤ MAX_SERVERS }
        ensures { EachLife self.now (λ deeds. OnOk result (frames.new ≡ frames.old
            ++ frame_bytes (flat_map
            (λ e. attempt_again servers deeds e.0) self.now.attempts.entries))) }
    {
        for (attempt, place) in self.attempts.iter() {
            attempt_again(alloc, servers, Attempt(*attempt), place, frames)?;
        }
        Ok(())
    }
}

/// Asks again, at so many servers, for what isn't answered of a run.
fn run_again(
    alloc: Global,
    servers: u32,
    run: RunNo,
    asked: &RunAsked,
    frames: &mut Frames,
) -> Result<(), AllocError>
    requires { servers ≤ MAX_SERVERS }
    ensures { (deeds : List Deed) → RunIs run deeds asked.now →
        OnOk result (frames.new ≡ frames.old ++ frame_bytes (run_again servers deeds run)) }
{
    if run.0 == 0 {
        return Ok(());
    }
    let act = asked.act;
    begin_again(alloc, servers, run, asked.text(), &asked.begins, frames)?;
    say_again(
        alloc,
        servers,
        Body::Trigger { run, act },
        &asked.triggers,
        frames,
    )?;
    say_again(alloc, servers, Body::Stop { run }, &asked.stops, frames)?;
    Ok(())
}

/// Asks again, at so many servers, for what isn't answered of an attempt, where it was made.
fn attempt_again(
    alloc: Global,
    servers: u32,
    attempt: Attempt,
    place: &Option<AttemptAsked>,
    frames: &mut Frames,
) -> Result<(), AllocError>
    requires { servers ≤ MAX_SERVERS }
    ensures { (deeds : List Deed) → AttemptFor attempt deeds (Some place.now) →
        OnOk result (frames.new ≡ frames.old ++ frame_bytes (attempt_again servers deeds attempt)) }
{
    let Some(asked) = place else {
        return Ok(());
    };
    let run = asked.run;
    if run.0 == 0 || attempt.0 == 0 {
        return Ok(());
    }
    let text = Text::copied(alloc, asked.text.as_slice())?;
    let body = Body::Verify { run, attempt, text };
    say_again(alloc, servers, body, &asked.verifies, frames)?;
    Ok(())
}
