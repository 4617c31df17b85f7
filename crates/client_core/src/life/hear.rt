//! What a server says.

ghost use Rattle.std.specs.Prelude.{◌≡◌, ◌<◌, ◌∷◌, true, IsTrue, List, Some, OnOk, OnErr};
ghost use Rattle.fc_base.specs.Keys.{is_same_key};
ghost use Rattle.std.specs.HashSet.{IsUnchanged, Updates};
ghost use Rattle.fc_base.specs.declared.limits.TheConstants.{MAX_SERVERS};
ghost use Rattle.messages.specs.declared.limits.TheConstants.{MIRROR_NUMBER};
ghost use Rattle.messages.specs.Ranges.{is_body};
ghost use Rattle.messages.specs.Bodies.{kind_of};
ghost use Rattle.messages.specs.Kinds.{is_of_mirror};
ghost use Rattle.client_core.specs.Life.{Deed, Hears};
ghost use Rattle.client_core.specs.Lives.{LifeIs, EachLife, RunsAre, AttemptsAre, AttemptFor};
ghost use Rattle.client_core.specs.Told.{IsNoReport};

mod report;

use super::Life;
use crate::attempt_asked::AttemptAsked;
use crate::received::Received;
use crate::told::{attempt_told, run_told};
use fc_base::{Attempt, Key, ServerNo};
use messages::Body;
use std::alloc::AllocError;

impl Life {
    /// What a server says. Where memory runs out, nothing is heard.
    pub fn hear_any(&mut self, server: u32, body: Body) -> Result<(), AllocError>
        requires server { server < MAX_SERVERS }
        requires body { IsTrue (is_body body) }
        ensures left { OnOk result (EachLife self.old
            (λ deeds. LifeIs self.new (Hears server body ∷ deeds))) }
        ensures same { OnErr result (EachLife self.old (LifeIs self.new)) }
    {
        match body {
            Body::Report {
                run,
                attempt,
                job,
                jobs,
                report,
            } => {
                let received = Received {
                    run,
                    attempt,
                    server: ServerNo(server),
                    job,
                    report,
                };
                self.hear_report(received, jobs)
            }
            body => {
                self.hear(server, &body);
                Ok(())
            }
        }
    }

    /// What the mirror says. Where memory runs out, nothing is heard.
    pub fn hear_mirror(&mut self, body: &Body) -> Result<(), AllocError>
        requires { IsTrue (is_of_mirror (kind_of body.now)) }
        ensures left { OnOk result (EachLife self.old
            (λ deeds. LifeIs self.new (Hears MIRROR_NUMBER body.now ∷ deeds))) }
        ensures same { OnErr result (EachLife self.old (LifeIs self.new)) }
    {
        match body {
            Body::CopyOk { run, server, job } => {
                let (run, server, job) = (*run, *server, *job);
                self.add_copied(Key { run, server, job })
            }
            _ => Ok(()),
        }
    }

    /// The mirror keeps the state of this key.
    fn add_copied(&mut self, key: Key) -> Result<(), AllocError>
        ensures copied { OnOk result
            (Updates is_same_key self.old.copied self.new.copied key true) }
        ensures same { OnErr result (IsUnchanged self.old.copied self.new.copied) }
        ensures runs { self.new.runs ≡ self.old.runs }
        ensures attempts { self.new.attempts ≡ self.old.attempts }
        ensures reports { self.new.reports ≡ self.old.reports }
    {
        self.copied.insert(key)?;
        Ok(())
    }

    /// What a server says, but for a report.
    pub fn hear(&mut self, server: u32, body: &Body)
        requires server { server < MAX_SERVERS }
        requires body { IsTrue (is_body body.now) }
        requires no_report { IsNoReport body.now }
        ensures { EachLife self.old (λ deeds. LifeIs self.new (Hears server body.now ∷ deeds)) }
    {
        self.hear_of_run(server, body);
        self.hear_of_attempt(server, body);
    }

    /// The requests of a run hear it.
    fn hear_of_run(&mut self, server: u32, body: &Body)
        requires server { server < MAX_SERVERS }
        requires body { IsTrue (is_body body.now) }
        ensures runs { (deeds : List Deed) → RunsAre self.old deeds →
            RunsAre self.new (Hears server body.now ∷ deeds) }
        ensures attempts { self.new.attempts ≡ self.old.attempts }
        ensures reports { self.new.reports ≡ self.old.reports }
        ensures copied { self.new.copied ≡ self.old.copied }
    {
        let run = run_told(body);
        if let Some(asked) = self.runs.get_mut(&run.0) {
            asked.hear(run, server, body);
        }
    }

    /// The attempt hears it.
    fn hear_of_attempt(&mut self, server: u32, body: &Body)
        requires server { server < MAX_SERVERS }
        requires body { IsTrue (is_body body.now) }
        ensures attempts { (deeds : List Deed) → AttemptsAre self.old deeds →
            AttemptsAre self.new (Hears server body.now ∷ deeds) }
        ensures runs { self.new.runs ≡ self.old.runs }
        ensures reports { self.new.reports ≡ self.old.reports }
        ensures copied { self.new.copied ≡ self.old.copied }
    {
        let attempt = attempt_told(body);
        if let Some(place) = self.attempts.get_mut(&attempt.0) {
            hear_at(place, attempt, server, body);
        }
    }
}

/// An attempt hears what a server says, where it was made.
fn hear_at(place: &mut Option<AttemptAsked>, attempt: Attempt, server: u32, body: &Body)
    requires server { server < MAX_SERVERS }
    requires body { IsTrue (is_body body.now) }
    ensures { (deeds : List Deed) → AttemptFor attempt deeds (Some place.old) →
        AttemptFor attempt (Hears server body.now ∷ deeds) (Some place.new) }
{
    if let Some(asked) = place {
        asked.hear(attempt, server, body);
    }
}
