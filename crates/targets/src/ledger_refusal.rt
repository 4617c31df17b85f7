//! Why a target isn't checked by its ledger.

ghost use Rattle.std.specs.Prelude.{◌≡◌, IfOk};
ghost use Rattle.std.specs.Io.KnownBytes.{Appends};
ghost use Rattle.fc_base.specs.declared.fault.Fault.TheVariants as faults;
ghost use Rattle.program_io.specs.Refusals.{plain};
ghost use Rattle.targets.specs.declared.ledger_refusal.LedgerRefusal.TheVariants as refusals;
ghost use Rattle.targets.specs.Ledgers.{RefusesBy};

use crate::drive_write::refuse;
use fc_base::Fault;
use ledger::LedgerFault;
use program_io::{PrintedRefusal, REFUSED};
use std::alloc::AllocError;
use std::io;
use std::io::Write;

/// Why a target isn't checked by its ledger.
#[derive(Clone, Copy)]
pub(crate) enum LedgerRefusal {
    /// What refuses a check by a state, too.
    Printed(PrintedRefusal),
    /// The bytes of the ledger.
    OfLedger(LedgerFault),
}

impl From<PrintedRefusal> for LedgerRefusal {
    ghost from_gives = { λ it refusal. refusal ≡ refusals.Printed it };

    fn from(it: PrintedRefusal) -> LedgerRefusal {
        LedgerRefusal::Printed(it)
    }
}

impl From<Fault> for LedgerRefusal {
    ghost from_gives = { λ fault refusal. refusal ≡ refusals.Printed (plain fault) };

    fn from(fault: Fault) -> LedgerRefusal {
        LedgerRefusal::Printed(PrintedRefusal::from(fault))
    }
}

impl From<LedgerFault> for LedgerRefusal {
    ghost from_gives = { λ fault refusal. refusal ≡ refusals.OfLedger fault };

    fn from(fault: LedgerFault) -> LedgerRefusal {
        LedgerRefusal::OfLedger(fault)
    }
}

impl From<AllocError> for LedgerRefusal {
    ghost from_gives = { λ _ refusal. refusal ≡ refusals.Printed (plain faults.NoMemory) };

    fn from(_error: AllocError) -> LedgerRefusal {
        LedgerRefusal::from(Fault::NoMemory)
    }
}

/// Writes the line of a refusal, and answers its exit status.
pub(crate) fn refuse_by<W: Write>(writer: &mut W, refusal: LedgerRefusal) -> io::Result<u8>
    ensures { IfOk result (RefusesBy refusal (W.contents writer.old) (W.contents writer.new)) }
{
    match refusal {
        LedgerRefusal::Printed(refusal) => refuse(writer, refusal),
        LedgerRefusal::OfLedger(fault) => refuse_ledger(writer, fault),
    }
}

/// Writes why the bytes of a ledger are refused.
fn refuse_ledger<W: Write>(writer: &mut W, fault: LedgerFault) -> io::Result<u8>
    ensures { IfOk result (RefusesBy (refusals.OfLedger fault) (W.contents writer.old)
        (W.contents writer.new)) }
{
    writeln!(writer, "refused {} {}", fault.number(), fault.name())?;
    writer.flush()?;
    Ok(REFUSED)
}
