//! What was asked in this life for one run, and how it stands at each server.

ghost use Rattle.std.specs.Prelude.{◌≡◌, ◌<◌, ◌≤◌, [], ◌∷◌, length, unwrap_or, IsTrue, List};
ghost use Rattle.fc_base.specs.declared.limits.TheConstants.{MAX_SERVERS, MAX_TEXT};
ghost use Rattle.messages.specs.Ranges.{is_body, is_run};

use crate::beginning::Beginning;
use crate::outcome::Outcome;
use crate::request_status::RequestStatus;
use fc_base::{MAX_SERVERS, RunNo};
use messages::{Act, Body, Text};

/// How many servers a client drives at most.
pub const SERVERS: usize = MAX_SERVERS as usize;

/// What was asked for one run, and how it stands at each server.
#[derive(Drop)]
pub struct RunAsked {
    pub text: Option<Text>,
    pub begins: [Beginning; SERVERS],
    pub act: Act,
    pub triggers: [RequestStatus; SERVERS],
    pub stops: [RequestStatus; SERVERS],
}

impl RunAsked {
    ghost use Rattle.client_core.specs.Life.{Deed, Begins, Triggers, Stops, Hears};
    ghost use Rattle.client_core.specs.Lives.{RunIs, Unnamed};
    ghost use Rattle.client_core.specs.Begins.{begin_at};
    ghost use Rattle.client_core.specs.Requests.{trigger_at, stop_at};
    ghost use Rattle.client_core.specs.Outcomes.{request_outcome};

    /// Nothing was asked.
    pub fn blank() -> RunAsked
        ensures { (run : _) (deeds : List Deed) → IsTrue (is_run run) → Unnamed run deeds →
            RunIs run deeds result }
    {
        RunAsked {
            text: None,
            begins: [Beginning::Unbegun; SERVERS],
            act: Act::None,
            triggers: [RequestStatus::unasked(); SERVERS],
            stops: [RequestStatus::unasked(); SERVERS],
        }
    }

    /// It is begun with this text.
    pub fn begin(&mut self, text: Text)
        ensures { (run : _) (deeds : List Deed) → RunIs run deeds self.old →
            RunIs run (Begins run text ∷ deeds) self.new }
    {
        self.text = Some(text);
        self.begins = [Beginning::Staging; SERVERS];
    }

    /// It is triggered, and then this is to be done.
    pub fn trigger(&mut self, act: Act)
        ensures { (run : _) (deeds : List Deed) → RunIs run deeds self.old →
            RunIs run (Triggers run act ∷ deeds) self.new }
    {
        self.act = act;
        self.triggers = [RequestStatus::open(); SERVERS];
    }

    /// It is stopped.
    pub fn stop(&mut self)
        ensures { (run : _) (deeds : List Deed) → RunIs run deeds self.old →
            RunIs run (Stops run ∷ deeds) self.new }
    {
        self.stops = [RequestStatus::open(); SERVERS];
    }

    /// The text with which it was begun, empty where it wasn't.
    pub fn text(&self) -> &[u8]
        ensures text { result.now ≡ unwrap_or self.now.text [] }
        ensures range { length result.now ≤ MAX_TEXT }
    {
        match &self.text {
            Some(text) => text.as_slice(),
            None => &[],
        }
    }

    /// How far its begin is at a server.
    pub fn begin_at(&self, server: u32) -> Beginning
        requires { server < MAX_SERVERS }
        ensures { (run : _) (deeds : List Deed) → RunIs run deeds self.now →
            result ≡ begin_at run server deeds }
    {
        self.begins[server as usize]
    }

    /// How its trigger stands at a server.
    pub fn trigger_at(&self, server: u32) -> Outcome
        requires { server < MAX_SERVERS }
        ensures { (run : _) (deeds : List Deed) → RunIs run deeds self.now →
            result ≡ request_outcome (trigger_at run server deeds) }
    {
        self.triggers[server as usize].outcome()
    }

    /// How its stop stands at a server.
    pub fn stop_at(&self, server: u32) -> Outcome
        requires { server < MAX_SERVERS }
        ensures { (run : _) (deeds : List Deed) → RunIs run deeds self.now →
            result ≡ request_outcome (stop_at run server deeds) }
    {
        self.stops[server as usize].outcome()
    }

    /// What a server says.
    pub fn hear(&mut self, run: RunNo, server: u32, body: &Body)
        requires server { server < MAX_SERVERS }
        requires body { IsTrue (is_body body.now) }
        ensures { (deeds : List Deed) → RunIs run deeds self.old →
            RunIs run (Hears server body.now ∷ deeds) self.new }
    {
        let at = server as usize;
        self.begins[at] = self.begins[at].heard(run, body);
        self.triggers[at].hear_trigger(run, body);
        self.stops[at].hear_stop(run, body);
    }
}
