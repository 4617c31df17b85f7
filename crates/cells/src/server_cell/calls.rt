//! A server under its lock is a node.

ghost use Rattle.std.specs.Prelude.{◌≡◌, IfOk};
ghost use Rattle.messages.specs.declared.node.Node.TheVariants.{Server as ServerNode};
ghost use Rattle.server_core.specs.History.{Opening as ServerOpening};
ghost use Rattle.server_core.specs.Hearing.{FrameEntry};
ghost use Rattle.server_core.specs.Inputs.{FrameInput as ServerInput};
ghost use Rattle.cells.specs.Rules.{Meets};
ghost use Rattle.cells.specs.ServerRules.{ask_of, rules as server_rules};
ghost use Rattle.cells.specs.ServerAsks.{asks_of};

use super::ServerCell;
use super::report::Report;
use crate::answer::Receipt;
use crate::cell::Node;
use crate::history::History;
use crate::input::NodeInput;
use disk_model::Notes;
use fc_base::Fault;
use messages::{Frame, Hub, Node as NodeName};
use server_core::Input;
use std::alloc::{AllocError, Global};

impl<N: Notes + Drop> Node for ServerCell<N> {
    type Command = Report;

    ghost Opening = { ServerOpening };

    ghost Input = { ServerInput };

    ghost Past = { FrameEntry };

    ghost rules = { server_rules };

    ghost name = { λ opening. ServerNode opening.me };

    ghost asks = { asks_of };

    ghost opening = { λ cell. cell.opening };

    ghost log = { λ cell. cell.history };

    ghost failures = { λ cell. cell.failures };

    fn number(&self) -> NodeName {
        NodeName::Server(self.me())
    }

    fn history(&self) -> &History {
        ServerCell::history(self)
    }

    fn deliver(&mut self, hub: &mut Hub, position: u64) -> Result<Receipt, Fault> {
        self.cell.deliver(hub, NodeName::Server(self.me), position)
    }

    /// Takes the report of a job's check, and sends it to the client.
    fn post(&mut self, hub: &mut Hub, command: Report) -> Result<Receipt, Fault> {
        if self.cell.power.core().is_none() {
            return Err(Fault::NodeOff);
        }
        let Ok(incoming) = incoming(self.cell.alloc, command) else {
            return Err(Fault::NoMemory);
        };
        let me = NodeName::Server(self.me);
        self.cell.hear(hub, me, incoming, None)
    }
}

/// As what the report of a check is kept, and what the server is asked by it.
fn incoming(alloc: Global, command: Report) -> Result<(NodeInput, Input<Frame>), AllocError>
    ensures came { IfOk result (λ it. ask_of it.0 ≡ asks_of command) }
    ensures input { IfOk result (λ it. Meets it.1 ≡ asks_of command) }
{
    let Report {
        boot,
        attempt,
        job,
        report,
    } = command;
    let kept = Box::new(alloc, report)?;
    let came = NodeInput::CheckDone {
        boot,
        attempt,
        job,
        report: kept,
    };
    let input = Input::CheckDone {
        boot,
        attempt,
        job,
        report,
    };
    Ok((came, input))
}
