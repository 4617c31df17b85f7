//! How the requests of this life stand.

ghost use Rattle.std.specs.Prelude.{◌≡◌, ◌<◌, ◌≤◌, length};
ghost use Rattle.fc_base.specs.declared.limits.TheConstants.{MAX_SERVERS, MAX_TEXT};
ghost use Rattle.client_core.specs.Begins.{begin_at};
ghost use Rattle.client_core.specs.Life.{text_of};
ghost use Rattle.client_core.specs.Lives.{EachLife};
ghost use Rattle.client_core.specs.Packets.{is_copied};
ghost use Rattle.client_core.specs.Outcomes.{request_outcome, outcome_at, all_ended};
ghost use Rattle.client_core.specs.Requests.{trigger_at, stop_at, verify_at};

use super::Life;
use crate::beginning::Beginning;
use crate::outcome::{Outcome, RequestKind};
use fc_base::{Attempt, Key, RunNo};

impl Life {
    /// How far the begin of a run is at a server.
    pub fn begin_at(&self, run: RunNo, server: u32) -> Beginning
        requires { server < MAX_SERVERS }
        ensures { EachLife self.now (λ deeds. result ≡ begin_at run server deeds) }
    {
        match self.runs.get(&run.0) {
            Some(asked) => asked.begin_at(server),
            None => Beginning::Unbegun,
        }
    }

    /// The text with which a run was begun in this life, empty where it wasn't.
    pub fn text_of(&self, run: RunNo) -> &[u8]
        ensures text { EachLife self.now (λ deeds. result.now ≡ text_of run deeds) }
        ensures range { length result.now ≤ MAX_TEXT }
    {
        match self.runs.get(&run.0) {
            Some(asked) => asked.text(),
            None => &[],
        }
    }

    /// How a request stands at a server, by the number of its run or attempt.
    pub fn outcome(&self, kind: RequestKind, number: u64, server: u32) -> Outcome
        requires { server < MAX_SERVERS }
        ensures { EachLife self.now (λ deeds. result ≡ outcome_at kind number server deeds) }
    {
        match kind {
            RequestKind::Begin => self.begin_at(RunNo(number), server).outcome(),
            RequestKind::Trigger => self.trigger_outcome(RunNo(number), server),
            RequestKind::Stop => self.stop_outcome(RunNo(number), server),
            RequestKind::Verify => self.verify_outcome(Attempt(number), server),
        }
    }

    /// How the trigger of a run stands at a server.
    pub fn trigger_outcome(&self, run: RunNo, server: u32) -> Outcome
        requires { server < MAX_SERVERS }
        ensures { EachLife self.now
            (λ deeds. result ≡ request_outcome (trigger_at run server deeds)) }
    {
        match self.runs.get(&run.0) {
            Some(asked) => asked.trigger_at(server),
            None => Outcome::None,
        }
    }

    /// How the stop of a run stands at a server.
    fn stop_outcome(&self, run: RunNo, server: u32) -> Outcome
        requires { server < MAX_SERVERS }
        ensures { EachLife self.now (λ deeds. result ≡ request_outcome (stop_at run server deeds)) }
    {
        match self.runs.get(&run.0) {
            Some(asked) => asked.stop_at(server),
            None => Outcome::None,
        }
    }

    /// How an attempt to verify stands at a server.
    fn verify_outcome(&self, attempt: Attempt, server: u32) -> Outcome
        requires { server < MAX_SERVERS }
        ensures { EachLife self.now
            (λ deeds. result ≡ request_outcome (verify_at attempt server deeds)) }
    {
        match self.attempts.get(&attempt.0) {
            Some(Some(asked)) => asked.verify_at(server),
            _ => Outcome::None,
        }
    }

    /// Whether the mirror said in this life that it keeps the state of this key.
    pub fn is_copied(&self, key: Key) -> bool
        ensures { EachLife self.now (λ deeds. result ≡ is_copied key deeds) }
    {
        self.copied.contains(&key)
    }

    /// Whether the trigger of a run has ended at each of so many servers.
    pub fn settled(&self, run: RunNo, servers: u32) -> bool
        requires { servers ≤ MAX_SERVERS }
        ensures { EachLife self.now (λ deeds. result ≡ all_ended run deeds servers) }
    {
        let mut settled = true;
        for server in 0..servers {
            let ended = self.trigger_outcome(run, server).has_ended();
            settled = settled && ended;
        }
        settled
    }
}
