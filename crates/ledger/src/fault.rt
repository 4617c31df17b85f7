//! Why bytes are no ledger.

ghost use Rattle.std.specs.Prelude.{◌≡◌};
ghost use Rattle.ledger.specs.Faults.{number_of, name_of};
ghost use Rattle.ledger.specs.declared.fault.LedgerFault.TheVariants.{NoMemory};

use std::alloc::{AllocError, AllocFailed};
use thiserror::Error;

/// Why bytes are no ledger of a place. Nothing is left of them.
#[derive(Clone, Copy, Debug, PartialEq, Eq, Error)]
pub enum LedgerFault {
    #[error("the ledger is cut short")]
    Short,
    #[error("the ledger's digest is another")]
    Damaged,
    #[error("the bytes are no ledger")]
    NoLedger,
    #[error("the ledger has more blocks than a job")]
    TooManyBlocks,
    #[error("the ledger's blocks are too large")]
    BadBlockSize,
    #[error("the ledger has a run that no run can be")]
    BadRun,
    #[error("the ledger has a write that no run has")]
    Impossible,
    #[error("the ledger isn't spelled as one")]
    OtherSpelling,
    #[error("the ledger is longer than ledgers may be")]
    TooLong,
    #[error("the ledger is of blocks of another size or number")]
    OtherPlace,
    #[error("memory ran out")]
    NoMemory,
}

impl LedgerFault {
    /// The number that is printed: 100 to 109, or 35 for want of memory.
    pub fn number(self) -> u8
        ensures { result ≡ number_of self }
    {
        match self {
            LedgerFault::Short => 100,
            LedgerFault::Damaged => 101,
            LedgerFault::NoLedger => 102,
            LedgerFault::TooManyBlocks => 103,
            LedgerFault::BadBlockSize => 104,
            LedgerFault::BadRun => 105,
            LedgerFault::Impossible => 106,
            LedgerFault::OtherSpelling => 107,
            LedgerFault::TooLong => 108,
            LedgerFault::OtherPlace => 109,
            LedgerFault::NoMemory => 35,
        }
    }

    /// The name that is printed.
    pub fn name(self) -> &'static str
        ensures { result.now ≡ name_of self }
    {
        match self {
            LedgerFault::Short => "Short",
            LedgerFault::Damaged => "Damaged",
            LedgerFault::NoLedger => "NoLedger",
            LedgerFault::TooManyBlocks => "TooManyBlocks",
            LedgerFault::BadBlockSize => "BadBlockSize",
            LedgerFault::BadRun => "BadRun",
            LedgerFault::Impossible => "Impossible",
            LedgerFault::OtherSpelling => "OtherSpelling",
            LedgerFault::TooLong => "TooLong",
            LedgerFault::OtherPlace => "OtherPlace",
            LedgerFault::NoMemory => "NoMemory",
        }
    }
}

impl From<AllocError> for LedgerFault {
    ghost from_gives = { λ _ fault. fault ≡ NoMemory };

    fn from(_fault: AllocError) -> LedgerFault {
        LedgerFault::NoMemory
    }
}

impl<T: Drop> From<AllocFailed<T>> for LedgerFault {
    ghost from_gives = { λ _ fault. fault ≡ NoMemory };

    fn from(_fault: AllocFailed<T>) -> LedgerFault {
        LedgerFault::NoMemory
    }
}
