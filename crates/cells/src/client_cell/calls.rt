//! The client under its lock is a node.

ghost use Rattle.messages.specs.declared.node.Node.TheVariants.{Client as ClientNode};
ghost use Rattle.client_core.specs.History.{Opening as ClientOpening};
ghost use Rattle.client_core.specs.Hearing.{FrameEntry};
ghost use Rattle.client_core.specs.Inputs.{FrameInput as ClientInput};
ghost use Rattle.cells.specs.ClientRules.{rules as client_rules};
ghost use Rattle.cells.specs.ClientAsks.{asks_of};

use super::ClientCell;
use super::command::ClientCommand;
use super::incoming::Incoming;
use super::tick::tick;
use crate::answer::Receipt;
use crate::cell::Node;
use crate::history::History;
use disk_model::Notes;
use fc_base::Fault;
use messages::{Hub, Node as NodeName};

impl<N: Notes + Drop> Node for ClientCell<N> {
    type Command = ClientCommand;

    ghost Opening = { ClientOpening };

    ghost Input = { ClientInput };

    ghost Past = { FrameEntry };

    ghost rules = { client_rules };

    ghost name = { λ opening. ClientNode };

    ghost asks = { asks_of };

    ghost opening = { λ cell. cell.opening };

    ghost log = { λ cell. cell.history };

    ghost failures = { λ cell. cell.failures };

    fn number(&self) -> NodeName {
        NodeName::Client
    }

    fn history(&self) -> &History {
        ClientCell::history(self)
    }

    fn deliver(&mut self, hub: &mut Hub, position: u64) -> Result<Receipt, Fault> {
        self.cell.deliver(hub, NodeName::Client, position)
    }

    fn post(&mut self, hub: &mut Hub, command: ClientCommand) -> Result<Receipt, Fault> {
        match command {
            ClientCommand::Request(request) => {
                let incoming = Incoming::Request(request);
                self.cell.hear(hub, NodeName::Client, incoming, None)
            }
            ClientCommand::Tick => tick(&mut self.cell, hub),
        }
    }
}
