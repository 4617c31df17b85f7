//! Why nodes weren't assembled.

ghost use Rattle.std.specs.Prelude.{◌≡◌};
ghost use Rattle.assembly.specs.declared.fault.AssembleFault.TheVariants.{NoMemory};
ghost use Rattle.assembly.specs.Fault.{fault_of};

use fc_base::Fault;
use messages::Node;
use std::alloc::{AllocError, AllocFailed};
use thiserror::Error;

/// Why there is no list of events.
#[derive(Clone, Copy, Debug, PartialEq, Eq, Error)]
pub enum AssembleFault {
    /// A node and the journal differ at this place of the node's history; or, at place 0, it wasn't opened
    /// rightly, or a seat of it doesn't fit its history.
    #[error("node {} and the journal differ at {at}", .node.number())]
    Unlike { node: Node, at: u64 },
    #[error("memory ran out")]
    NoMemory,
}

impl AssembleFault {
    /// The fault's row in the table of faults, which gives its number and its name.
    pub fn fault(self) -> Fault
        ensures { result ≡ fault_of self }
    {
        match self {
            AssembleFault::Unlike { .. } => Fault::Unlike,
            AssembleFault::NoMemory => Fault::NoMemory,
        }
    }
}

impl From<AllocError> for AssembleFault {
    ghost from_gives = { λ _ fault. fault ≡ NoMemory };

    fn from(_error: AllocError) -> AssembleFault {
        AssembleFault::NoMemory
    }
}

impl<T: Drop> From<AllocFailed<T>> for AssembleFault {
    ghost from_gives = { λ _ fault. fault ≡ NoMemory };

    fn from(_error: AllocFailed<T>) -> AssembleFault {
        AssembleFault::NoMemory
    }
}
