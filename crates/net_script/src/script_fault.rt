//! Why a script has no status.

ghost use Rattle.std.specs.Prelude.{◌≡◌};

use program_io::InputFault;
use std::io;
use thiserror::Error;

/// Why a script has no status.
#[derive(Clone, Copy, Debug, PartialEq, Eq, Error)]
pub enum ScriptFault {
    /// A read failed, or there were too many.
    #[error("a read failed")]
    ReadError,
    /// A write failed.
    #[error("a write failed")]
    WriteError,
    /// No memory while the script was read.
    #[error("no memory for the script")]
    NoMemory,
}

impl From<InputFault> for ScriptFault {
    ghost use Rattle.net_script.specs.Runs.{of_input};

    ghost from_gives = { λ fault script. script ≡ of_input fault };

    fn from(fault: InputFault) -> ScriptFault {
        match fault {
            InputFault::ReadError => ScriptFault::ReadError,
            InputFault::NoMemory => ScriptFault::NoMemory,
        }
    }
}

impl From<io::Error> for ScriptFault {
    ghost use Rattle.net_script.specs.declared.script_fault.ScriptFault.TheVariants.{WriteError};

    ghost from_gives = { λ _ fault. fault ≡ WriteError };

    fn from(_error: io::Error) -> ScriptFault {
        ScriptFault::WriteError
    }
}
