//! `drive ledger`: the check of a target by its ledger.

ghost use Rattle.std.specs.Prelude.{◌≡◌, ◌≤◌, ◌<◌, ◌++◌, IfOk, IfSome, OnOk, length};
ghost use Rattle.std.specs.Io.KnownBytes.{Appends};
ghost use Rattle.ledger.specs.Checks.{report_of};
ghost use Rattle.ledger.specs.Spelling.{spelling};
ghost use Rattle.targets.specs.Ledgers.{ChecksTarget, last_line, ledger_part, unasked_line};
ghost use Rattle.targets.specs.LedgerJobs.{ChecksByLedger};
ghost use Rattle.targets.specs.LedgerSteps.{Ends, EndsCut, IsReady};
ghost use Rattle.targets.specs.MapJobs.{status_with};

use crate::command::Since;
use crate::drive_write::refuse;
use crate::ledger_input::start;
use crate::ledger_lines::write_found;
use crate::ledger_refusal::refuse_by;
use crate::ledger_steps::{LedgerMap, take_block};
use crate::ledger_sums::{Sums, no_sums, with_found, write_sums};
use crate::ledger_unchecked::write_unasked;
use crate::map::status_with;
use fc_base::{CheckReport, Fault, Key, MAX_BLOCKS};
use program_io::{PrintedRefusal, REFUSED, write_report_words};
use std::alloc::Global;
use std::io;
use std::io::{Read, Write};

/// Checks a target by its ledger, behind a run whose state was kept, behind one whose state was lost, or where no run was
/// since the last check. Reads a job file behind its length; of a run whose state was kept that state behind its own (0
/// for a full pass); the ledger behind its own (0 for one that asks for nothing); and then the blocks of the target as
/// [`map_job`](crate::map_job) does.
///
/// Writes a line for each block that holds nothing that its entry asks for, or could not be read though it asks for
/// something, ascending: where the run has completed a write to it that of a map, and else as
/// `block 9 at-rest: wants write 118 of run 7, holds zeros`; a line of the blocks of which nothing is asked; that of the
/// report, as a map's, with `at-rest 1` as the last kind; and `ledger N` with the N bytes of the ledger behind the check.
/// A block that could not be read keeps its entry.
///
/// The status is 0; 1 where the report has faults; and 2 where a block of which something is asked could not be read,
/// where the input ends before the region, which the report says as `end read B`, and for every refusal. Then there is no
/// ledger but in the first case: the old one stands. What refuses a map refuses this, besides the bytes of the ledger
/// ([`LedgerFault`](ledger::LedgerFault)). An error is that of a write.
pub fn ledger_job<R: Read, W: Write>(
    alloc: Global,
    key: Key,
    since: Since,
    reader: &mut R,
    writer: &mut W,
) -> io::Result<u8>
    ensures { IfSome (R.remaining reader.old) (λ input. IfOk result
        (ChecksByLedger key since input (W.contents writer.old) (W.contents writer.new))) }
{
    match start(alloc, key, since, reader) {
        Ok(map) => go_over(alloc, map, reader, writer),
        Err(refusal) => refuse_by(writer, refusal),
    }
}

/// Goes over the blocks.
fn go_over<R: Read, W: Write>(
    alloc: Global,
    mut map: LedgerMap,
    reader: &mut R,
    writer: &mut W,
) -> io::Result<u8>
    requires { IsReady map }
    ensures { IfSome (R.remaining reader.old) (λ target. IfOk result
        (ChecksTarget map.since map.recheck.expected map.asked target (W.contents writer.old)
        (W.contents writer.new))) }
{
    let mut sums = no_sums();
    for block in 0..map.recheck.expected().rec().blocks() {
        match take_block(&mut map, block, reader) {
            Ok(Some(found)) => {
                let entry = map.asked.entry(block);
                write_found(
                    writer,
                    map.recheck.expected(),
                    entry,
                    block,
                    &map.bytes,
                    &found,
                )?;
                sums = with_found(sums, &found);
            }
            Ok(None) => return end_at(writer, map, &sums, block),
            Err(fault) => return refuse(writer, PrintedRefusal::from(fault)),
        }
    }
    end_whole(alloc, writer, map, &sums)
}

/// Ends a check before a block in which the input ended: there is no new ledger.
fn end_at<W: Write>(writer: &mut W, map: LedgerMap, sums: &Sums, block: u32) -> io::Result<u8>
    requires { block < MAX_BLOCKS }
    ensures { IfOk result (EndsCut map sums.now block (W.contents writer.old)
        (W.contents writer.new)) }
{
    write_unasked(writer, &map.asked)?;
    let LedgerMap {
        since: _,
        recheck: _,
        asked: _,
        check,
        bytes: _,
        unread: _,
    } = map;
    write_last(writer, &check.finish_at(block), sums)?;
    writer.flush()?;
    Ok(REFUSED)
}

/// Ends a check of all blocks: the report and the new ledger are written, or that memory ran out.
fn end_whole<W: Write>(alloc: Global, writer: &mut W, map: LedgerMap, sums: &Sums) -> io::Result<u8>
    ensures { IfOk result (Ends map sums.now (W.contents writer.old) (W.contents writer.new)) }
{
    let LedgerMap {
        since: _,
        recheck: _,
        asked,
        check,
        bytes: _,
        unread,
    } = map;
    let (report, ledger) = check.finish();
    let Ok(spelled) = ledger.encode(alloc) else {
        return refuse(writer, PrintedRefusal::from(Fault::NoMemory));
    };
    write_unasked(writer, &asked)?;
    write_last(writer, &report, sums)?;
    write_ledger(writer, &spelled)?;
    writer.flush()?;
    Ok(status_with(unread, &report))
}

/// Writes the line of the report with the sums.
fn write_last<W: Write>(writer: &mut W, report: &CheckReport, sums: &Sums) -> io::Result<()>
    ensures { OnOk result (Appends (W.contents writer.old) (W.contents writer.new)
        (last_line report.now sums.now)) }
{
    write!(writer, "report ")?;
    write_report_words(writer, report)?;
    write_sums(writer, sums)?;
    writeln!(writer)
}

/// Writes a ledger behind its length.
fn write_ledger<W: Write>(writer: &mut W, spelled: &[u8]) -> io::Result<()>
    ensures { OnOk result (Appends (W.contents writer.old) (W.contents writer.new)
        (ledger_part spelled.now)) }
{
    let length = spelled.len();
    writeln!(writer, "ledger {length}")?;
    writer.write_all(spelled)
}
