//! What a target is checked by, where that is a ledger: a job, a state where there is one, and the ledger.

ghost use Rattle.std.specs.Prelude.{◌≡◌, ◌↔◌, IfOk, IfErr, IfSome, IsTrue, length};
ghost use Rattle.targets.specs.LedgerInput.{BeginsNoLedger, HasNoLedger, HasNoStateSince, IsLedgerIn, IsStateSince, Tells, TellsNone, place_since};
ghost use Rattle.ledger.specs.Places.{empty};
ghost use Rattle.targets.specs.LedgerSteps.{IsReady, ReadsBasis, StartsLedger};

use crate::command::Since;
use crate::drive_check::read_state;
use crate::job_setup::read_job;
use crate::ledger_refusal::LedgerRefusal;
use crate::ledger_steps::LedgerMap;
use crate::texts::read_text;
use fc_base::{Fault, JobRecord, Key};
use ledger::{Ledger, LedgerCheck, LedgerFault};
use recheck::{Expected, Recheck};
use std::alloc::{AllocError, Global};
use std::io::Read;
use verify_state::VerifyState;

/// The most bytes of a ledger that are read: 64 MiB. One of 65,536 blocks with a write each has 1.6 MB.
pub(crate) const MAX_LEDGER: usize = 67_108_864;

/// What a check by a ledger goes by: what one by the run's state alone does, and what each block has to hold.
#[derive(Drop)]
pub(crate) struct Basis {
    pub(crate) recheck: Recheck,
    pub(crate) asked: Ledger,
}

/// Starts a check by a ledger, by what is read.
pub(crate) fn start<R: Read>(
    alloc: Global,
    key: Key,
    since: Since,
    reader: &mut R,
) -> Result<LedgerMap, LedgerRefusal>
    ensures map { IfSome (R.remaining reader.old)
        (λ input. IfOk result (StartsLedger key since input (R.remaining reader.new))) }
    ensures none { IfSome (R.remaining reader.old)
        (λ input. IfErr result (BeginsNoLedger key since input)) }
    ensures ready { IfOk result IsReady }
{
    let Basis { recheck, asked } = read_basis(alloc, key, since, reader)?;
    let check = LedgerCheck::new(asked.copy(alloc)?);
    let Ok(bytes) = vec![in alloc; 0u8; recheck.expected().rec().bs() as usize] else {
        return Err(LedgerRefusal::from(Fault::NoMemory));
    };
    Ok(LedgerMap {
        since,
        recheck,
        asked,
        check,
        bytes,
        unread: false,
    })
}

/// Reads what a check by a ledger goes by: a job file, behind a run whose state was kept that state, and the ledger,
/// each behind its length, where 0 is a full pass in place of a state, and in place of a ledger one that asks for
/// nothing.
pub(crate) fn read_basis<R: Read>(
    alloc: Global,
    key: Key,
    since: Since,
    reader: &mut R,
) -> Result<Basis, LedgerRefusal>
    ensures basis { IfSome (R.remaining reader.old)
        (λ input. IfOk result (ReadsBasis key since input (R.remaining reader.new))) }
    ensures none { IfSome (R.remaining reader.old)
        (λ input. IfErr result (BeginsNoLedger key since input)) }
    ensures blocks { IfOk result
        (λ b. length b.asked.entries ≡ b.recheck.expected.job.blocks) }
{
    let job = read_job(alloc, reader, key.job)?;
    let state = read_state_since(alloc, since, reader)?;
    let recheck = Recheck::new(alloc, &job.rec, key, state.as_ref(), false)?;
    let known = read_ledger(alloc, reader, &job.rec)?;
    let asked = ledger_since(alloc, since, recheck.expected(), known)?;
    Ok(Basis { recheck, asked })
}

/// Reads the state of the run, where it was kept.
fn read_state_since<R: Read>(
    alloc: Global,
    since: Since,
    reader: &mut R,
) -> Result<Option<VerifyState>, Fault>
    ensures state { IfOk result
        (IsStateSince since (R.remaining reader.old) (R.remaining reader.new)) }
    ensures none { IfErr result (HasNoStateSince since (R.remaining reader.old)) }
{
    match since {
        Since::Run => read_state(alloc, reader),
        Since::LostRun => Ok(None),
        Since::Rest => Ok(None),
    }
}

/// Reads the ledger of a job's place.
fn read_ledger<R: Read>(
    alloc: Global,
    reader: &mut R,
    rec: &JobRecord,
) -> Result<Ledger, LedgerRefusal>
    ensures ledger { IfOk result
        (IsLedgerIn rec.now (R.remaining reader.old) (R.remaining reader.new)) }
    ensures none { IfErr result (HasNoLedger rec.now (R.remaining reader.old)) }
{
    let bytes = read_text(alloc, reader, MAX_LEDGER)?;
    match ledger_in(alloc, rec, &bytes) {
        Ok(ledger) => Ok(ledger),
        Err(fault) => Err(LedgerRefusal::from(fault)),
    }
}

/// The ledger of a job's place that these bytes are.
fn ledger_in(alloc: Global, rec: &JobRecord, bytes: &[u8]) -> Result<Ledger, LedgerFault>
    ensures ledger { IfOk result (Tells rec.now bytes.now) }
    ensures none { IfErr result (TellsNone rec.now bytes.now) }
{
    if bytes.is_empty() {
        return empty(alloc, rec);
    }
    if bytes.len() > MAX_LEDGER {
        return Err(LedgerFault::TooLong);
    }
    let ledger = Ledger::decode(alloc, bytes)?;
    if is_of_place(&ledger, rec) {
        Ok(ledger)
    } else {
        Err(LedgerFault::OtherPlace)
    }
}

/// A ledger of a job's place that asks for nothing.
fn empty(alloc: Global, rec: &JobRecord) -> Result<Ledger, LedgerFault>
    ensures ledger { IfOk result (λ l. l ≡ empty rec.now.bs rec.now.blocks) }
    ensures none { IfErr result (λ fault. fault ≡ LedgerFault.NoMemory) }
{
    Ok(Ledger::new(alloc, rec.bs(), rec.blocks())?)
}

/// Whether a ledger has the blocks of a job.
fn is_of_place(ledger: &Ledger, rec: &JobRecord) -> bool
    ensures { IsTrue result ↔ ((ledger.now.bs ≡ rec.now.bs)
        × (length ledger.now.entries ≡ rec.now.blocks)) }
{
    ledger.block_size() == rec.bs() && ledger.blocks() == rec.blocks()
}

/// What is known of a place behind what has happened since its ledger was made.
fn ledger_since(
    alloc: Global,
    since: Since,
    expected: &Expected,
    known: Ledger,
) -> Result<Ledger, AllocError>
    ensures { IfOk result (λ l. l ≡ place_since since expected.now known) }
{
    match since {
        Since::Run => known.after_run(alloc, expected),
        Since::LostRun => known.after_lost_run(alloc, &expected.rec()),
        Since::Rest => Ok(known),
    }
}
