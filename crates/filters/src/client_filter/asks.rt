//! What a record asks of the client, and what it answers.

ghost use Rattle.std.specs.Prelude.{◌≡◌, ◌≤◌, ◌++◌, List, Ok};
ghost use Rattle.client_core.specs.Inputs as inputs;
ghost use Rattle.client_core.specs.History.{Opening};
ghost use Rattle.client_core.specs.Hearing.{FrameEntry};
ghost use Rattle.client_core.specs.FrameEnds.{StandsFor, steps};
ghost use Rattle.filters.specs.declared.kinds.InRecordKind.TheVariants as told;
ghost use Rattle.filters.specs.Kept.{note_kept};
ghost use Rattle.filters.specs.ClientAsks.{input_in};
ghost use Rattle.filters.specs.ClientSteps.{answer_to};
ghost use Rattle.filters.specs.NodeSteps.{InputEnds, BodyEnds};
ghost use Rattle.filters.specs.ClientRuns.{AttemptsGoOn, SameAttempts, attempts_numbered};

use super::ClientFilter;
use crate::asking::{number_alone, trigger_in};
use crate::kinds::InRecordKind;
use crate::node_step::NodeStep;
use attempt_ends::{AskedPlaces, Attempted, Attempts, places_asked};
use client_core::looks_at_all;
use fc_base::{Attempt, Fault, RunNo, split_u64};
use messages::{Act, Frame, decode_frame};

impl ClientFilter {
    /// Asks the client what a record says.
    pub(super) fn ask(&mut self, kind: InRecordKind, body: &[u8]) -> Result<NodeStep, Fault>
        ensures ends { (opening : Opening) (past : List FrameEntry) →
            StandsFor note_kept self.old.client opening past →
            BodyEnds (steps note_kept opening) (answer_to opening past) past
            (input_in kind body.now) self.old.client self.new.client result }
        ensures attempts { (opening : Opening) (past : List FrameEntry) →
            StandsFor note_kept self.old.client opening past →
            AttemptsGoOn opening past (input_in kind body.now) self.old self.new result }
        ensures servers { self.new.servers ≡ self.old.servers }
    {
        match kind {
            InRecordKind::Frame => self.take(body),
            InRecordKind::Begin => self.begin(body),
            InRecordKind::Trigger => match trigger_in(body) {
                Some(asked) => self.trigger(asked.run, asked.act),
                None => Err(Fault::BadNotice),
            },
            InRecordKind::Stop => match number_alone(body) {
                Some(run) => self.stop(RunNo(run)),
                None => Err(Fault::BadNotice),
            },
            InRecordKind::Verify => self.verify_in(body),
            InRecordKind::Tick => self.tick_in(body),
            _ => Err(Fault::BadNotice),
        }
    }

    /// Takes the frame that these bytes are.
    fn take(&mut self, bytes: &[u8]) -> Result<NodeStep, Fault>
        ensures ends { (opening : Opening) (past : List FrameEntry) →
            StandsFor note_kept self.old.client opening past →
            BodyEnds (steps note_kept opening) (answer_to opening past) past
            (input_in told.Frame bytes.now) self.old.client self.new.client
            result }
        ensures same { SameAttempts self.old self.new }
    {
        match decode_frame(self.alloc, bytes) {
            Ok(frame) => self.deliver(frame),
            Err(fault) => Err(fault),
        }
    }

    /// Verifies the run that stands in the first eight bytes, by the job file behind it.
    fn verify_in(&mut self, body: &[u8]) -> Result<NodeStep, Fault>
        ensures ends { (opening : Opening) (past : List FrameEntry) →
            StandsFor note_kept self.old.client opening past →
            BodyEnds (steps note_kept opening) (answer_to opening past) past
            (input_in told.Verify body.now) self.old.client self.new.client
            result }
        ensures attempts { (opening : Opening) (past : List FrameEntry) →
            StandsFor note_kept self.old.client opening past →
            AttemptsGoOn opening past (input_in told.Verify body.now) self.old self.new result }
        ensures servers { self.new.servers ≡ self.old.servers }
    {
        if body.len() < 8 {
            return Err(Fault::BadNotice);
        }
        let (run, text) = split_u64(body);
        self.verify(RunNo(run), text)
    }

    fn begin(&mut self, text: &[u8]) -> Result<NodeStep, Fault>
        ensures ends { (opening : Opening) (past : List FrameEntry) →
            StandsFor note_kept self.old.client opening past →
            InputEnds (steps note_kept opening) (answer_to opening past) past
            (inputs.Begin text.now) self.old.client self.new.client result }
        ensures same { SameAttempts self.old self.new }
    {
        let saves = self.client.begin_would_save(text);
        let (run, frames) = self.client.begin(text)?;
        Ok(NodeStep {
            saves,
            number: Some(run.0),
            frames,
            act: Act::None,
        })
    }

    fn trigger(&mut self, run: RunNo, act: Act) -> Result<NodeStep, Fault>
        ensures ends { (opening : Opening) (past : List FrameEntry) →
            StandsFor note_kept self.old.client opening past →
            InputEnds (steps note_kept opening) (answer_to opening past) past
            (inputs.Trigger run act) self.old.client self.new.client result }
        ensures same { SameAttempts self.old self.new }
    {
        let frames = self.client.trigger(run, act)?;
        Ok(NodeStep {
            saves: false,
            number: None,
            frames,
            act: Act::None,
        })
    }

    fn stop(&mut self, run: RunNo) -> Result<NodeStep, Fault>
        ensures ends { (opening : Opening) (past : List FrameEntry) →
            StandsFor note_kept self.old.client opening past →
            InputEnds (steps note_kept opening) (answer_to opening past) past
            (inputs.Stop run) self.old.client self.new.client result }
        ensures same { SameAttempts self.old self.new }
    {
        let frames = self.client.stop(run)?;
        Ok(NodeStep {
            saves: false,
            number: None,
            frames,
            act: Act::None,
        })
    }

    fn verify(&mut self, run: RunNo, text: &[u8]) -> Result<NodeStep, Fault>
        ensures ends { (opening : Opening) (past : List FrameEntry) →
            StandsFor note_kept self.old.client opening past →
            InputEnds (steps note_kept opening) (answer_to opening past) past
            (inputs.Verify run text.now) self.old.client self.new.client result }
        ensures attempts { (opening : Opening) (past : List FrameEntry) →
            StandsFor note_kept self.old.client opening past →
            AttemptsGoOn opening past (Ok (inputs.Verify run text.now)) self.old self.new result }
        ensures servers { self.new.servers ≡ self.old.servers }
    {
        looks_at_all();
        let asked = match places_asked(self.alloc, &self.client, self.servers, run, text) {
            Ok(asked) => asked,
            Err(_) => return Err(Fault::NoMemory),
        };
        match self.attempts.reserve() {
            Ok(()) => {}
            Err(_) => return Err(Fault::NoMemory),
        }
        match self.verify_by_client(run, text) {
            Ok(answered) => {
                push_answered(&mut self.attempts, run, asked, &answered);
                Ok(answered)
            }
            Err(fault) => Err(fault),
        }
    }

    /// Verifies a run, and leaves it to the caller to know the attempt.
    fn verify_by_client(&mut self, run: RunNo, text: &[u8]) -> Result<NodeStep, Fault>
        ensures ends { (opening : Opening) (past : List FrameEntry) →
            StandsFor note_kept self.old.client opening past →
            InputEnds (steps note_kept opening) (answer_to opening past) past
            (inputs.Verify run text.now) self.old.client self.new.client result }
        ensures same { SameAttempts self.old self.new }
    {
        let saves = self.client.verify_would_save(run, text);
        let (attempt, frames) = self.client.verify(run, text)?;
        Ok(NodeStep {
            saves,
            number: Some(attempt.0),
            frames,
            act: Act::None,
        })
    }

    /// Ticks, where nothing is asked with it.
    fn tick_in(&self, body: &[u8]) -> Result<NodeStep, Fault>
        ensures { (opening : Opening) (past : List FrameEntry) →
            StandsFor note_kept self.now.client opening past →
            BodyEnds (steps note_kept opening) (answer_to opening past) past
            (input_in told.Tick body.now) self.now.client self.now.client result }
    {
        if !body.is_empty() {
            return Err(Fault::BadNotice);
        }
        self.tick()
    }

    fn tick(&self) -> Result<NodeStep, Fault>
        ensures { (opening : Opening) (past : List FrameEntry) →
            StandsFor note_kept self.now.client opening past →
            InputEnds (steps note_kept opening) (answer_to opening past) past
            inputs.Tick self.now.client self.now.client result }
    {
        let frames = self.client.tick()?;
        Ok(NodeStep {
            saves: false,
            number: None,
            frames,
            act: Act::None,
        })
    }

    #[tactic(auto, using(crate::proofs::NodeLemmas::not_taken))]
    fn deliver(&mut self, frame: Frame) -> Result<NodeStep, Fault>
        ensures ends { (opening : Opening) (past : List FrameEntry) →
            StandsFor note_kept self.old.client opening past →
            InputEnds (steps note_kept opening) (answer_to opening past) past
            (inputs.Deliver frame) self.old.client self.new.client result }
        ensures same { SameAttempts self.old self.new }
    {
        let Ok(saves) = self.client.would_save(&frame) else {
            return Err(Fault::NoMemory);
        };
        let frames = self.client.deliver(frame)?;
        Ok(NodeStep {
            saves,
            number: None,
            frames,
            act: Act::None,
        })
    }
}

/// Adds the attempt that was answered with a number, of a run, which asks for these places.
fn push_answered(attempts: &mut Attempts, run: RunNo, asked: AskedPlaces, answered: &NodeStep)
    requires { 1 ≤ attempts.old.room }
    ensures { attempts.new.made
        ≡ attempts.old.made ++ attempts_numbered run asked answered.now.number }
{
    if let Some(number) = answered.number {
        attempts.push(Attempted {
            attempt: Attempt(number),
            run,
            asked,
        });
    }
}
