//! The client is the core of a node.

ghost use Rattle.std.specs.Prelude.{◌≡◌, ◌≤◌, List, IfOk, is_some};
ghost use Rattle.fc_base.specs.declared.limits.TheConstants.{MAX_SERVERS};
ghost use Rattle.client_core.specs.Inputs.{FrameInput as ClientInput};
ghost use Rattle.client_core.specs.History.{Opening as ClientOpening};
ghost use Rattle.client_core.specs.Hearing.{FrameEntry, is_up};
ghost use Rattle.client_core.specs.FrameAnswers.{due, sense};
ghost use Rattle.client_core.specs.Ranges.{IsInRange};
ghost use Rattle.client_core.specs.Saves.{Addition as ClientAddition};
ghost use Rattle.client_core.specs.FrameEnds as client;
ghost use Rattle.messages.specs.Senses.{HearsInRange};
ghost use Rattle.node.specs.Kinds.{Laws};
ghost use Rattle.node.specs.Steps.{Ends};
ghost use Rattle.client_core.specs.NodeKind.{client_kind};
ghost use Rattle.client_core.specs.Answers.{input_of, node_steps};

use super::Client;
use crate::input::Input;
use crate::outs::{Answer, Outs};
use disk_model::Notes;
use fc_base::Fault;
use node::NodeCore;
use std::alloc::{AllocError, Global};

/// What a client is started with, beside its notes: how many servers it drives, and whether it has a mirror.
#[derive(Clone, Copy)]
pub struct ClientSeed {
    pub servers: u32,
    pub mirror: bool,
}

impl<'t, N: Notes + Drop> NodeCore<'t, N> for Client<N> {
    type Seed = ClientSeed;

    type Input = Input<'t>;

    type Outs = Outs;

    ghost Opening = { ClientOpening };

    ghost Came = { ClientInput };

    ghost Entry = { FrameEntry };

    ghost Addition = { ClientAddition };

    ghost came = { input_of };

    ghost kind = { client_kind N.note };

    ghost IsSeed = { λ seed. (1 ≤ seed.servers) × (seed.servers ≤ MAX_SERVERS) };

    ghost Opens = { λ seed notes result.
        client.Restarts N.note seed.servers seed.mirror (N.note notes) result };

    #[inline(always)]
    fn is_up(&self) -> bool
        ensures { (opening : ClientOpening) (past : List FrameEntry) →
            client.StandsFor N.note self.now opening past → result ≡ is_up opening past }
    {
        self.on()
    }

    /// Takes what comes, as [`Client::begin`] and the others say.
    fn step(&mut self, input: Input<'t>) -> Result<Outs, Fault>
        ensures ends { (opening : ClientOpening) (past : List FrameEntry) →
            client.StandsFor N.note self.old opening past →
            Ends (node_steps N.note opening) past (input_of input.entry) self.old self.new result }
        ensures ranges { (opening : ClientOpening) (past : List FrameEntry) →
            client.StandsFor N.note self.old opening past →
            HearsInRange IsInRange (sense opening past (input_of input.entry)) result }
    {
        match input {
            Input::Begin(text) => {
                let (run, frames) = self.begin(text)?;
                let answer = Answer::Run(run);
                Ok(Outs { answer, frames })
            }
            Input::Verify(run, text) => {
                let (attempt, frames) = self.verify(run, text)?;
                let answer = Answer::Attempt(attempt);
                Ok(Outs { answer, frames })
            }
            Input::Trigger(run, act) => Ok(Outs::sent(self.trigger(run, act)?)),
            Input::Stop(run) => Ok(Outs::sent(self.stop(run)?)),
            Input::Tick => Ok(Outs::sent(self.tick()?)),
            Input::Deliver(frame) => Ok(Outs::sent(self.deliver(frame)?)),
        }
    }

    /// A begin, a verify and a frame may make a save.
    fn would_save(&self, input: &Input<'t>) -> Result<bool, AllocError>
        ensures { (opening : ClientOpening) (past : List FrameEntry) →
            client.StandsFor N.note self.now opening past →
            IfOk result (λ saves. saves ≡ is_some (due opening past (input_of input.now))) }
    {
        match input {
            Input::Begin(text) => Ok(self.begin_would_save(text)),
            Input::Verify(run, text) => Ok(self.verify_would_save(*run, text)),
            Input::Deliver(frame) => Client::would_save(self, frame),
            Input::Trigger(_, _) | Input::Stop(_) | Input::Tick => Ok(false),
        }
    }

    fn notes(&self) -> &N
        ensures same { N.note result.now ≡ client.note_in N.note self.now }
        ensures says { (opening : ClientOpening) (past : List FrameEntry) →
            client.StandsFor N.note self.now opening past →
            (client_kind N.note opening).Says past result.now }
    {
        Client::notes(self)
    }

    fn into_notes(self) -> N
        ensures same { N.note result ≡ client.note_in N.note self }
        ensures says { (opening : ClientOpening) (past : List FrameEntry) →
            client.StandsFor N.note self opening past →
            (client_kind N.note opening).Says past result }
    {
        self.off()
    }

    /// Starts a client from what its note says.
    ///
    /// `BadNote`: with a mirror it has none. `LoadFault`. `NoMemory`.
    fn start(alloc: Global, seed: ClientSeed, notes: N) -> Result<Client<N>, (N, Fault)>
        requires some { 1 ≤ seed.servers }
        requires few { seed.servers ≤ MAX_SERVERS }
        ensures { client.Restarts N.note seed.servers seed.mirror (N.note notes) result }
    {
        let ClientSeed { servers, mirror } = seed;
        Client::restart(alloc, servers, mirror, notes)
    }

    fn keeps_laws()
        ensures { (opening : ClientOpening) → Laws (client_kind N.note opening) }
    {}
}
