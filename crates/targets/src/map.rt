//! `drive map`: what each faulty block of a target holds.

ghost use Rattle.std.specs.Prelude.{◌≡◌, ◌≤◌, ◌<◌, ◌+◌, ◌||◌, false, true, length, IfOk, IfErr, IfSome, OnOk, IsTrue, Some, None};
ghost use Rattle.std.specs.Io.KnownBytes.{Appends};
ghost use Rattle.recheck.specs.Report.{report_of, report_with};
ghost use Rattle.recheck.specs.Check.{start};
ghost use Rattle.targets.specs.Reports.{CannotCheck, report_status};
ghost use Rattle.targets.specs.MapJobs.{MapsJob, StartsMap, misfit, status_with};
ghost use Rattle.targets.specs.Maps.{MapsTarget, last_line};
ghost use Rattle.targets.specs.MapKinds.{all_lines};
ghost use Rattle.targets.specs.Mapping.{GoesOn, IsReady, Takes, TellsUnread};
ghost use Rattle.targets.specs.Units.{unit_fits};

use crate::block_verdict::BlockVerdict;
use crate::drive_check::{read_state, status_of};
use crate::drive_write::refuse;
use crate::job_setup::read_job;
use crate::kind_counts::{KindCounts, no_lines, with_line, write_kinds};
use crate::map_bytes::tell_bytes;
use crate::map_input::{BlockRead, next_block};
use crate::map_lines::write_told;
use crate::map_unchecked::write_unchecked;
use crate::units::unit_fits;
use fc_base::{CheckReport, Fault, JobNo, Key};
use program_io::{PrintedRefusal, write_report_words};
use recheck::Recheck;
use std::alloc::Global;
use std::io;
use std::io::{Read, Write};

/// The exit status where a checked block could not be read.
const UNREAD: u8 = 2;

/// A map under way.
#[derive(Drop)]
struct Map {
    check: Recheck,
    bytes: Vec<u8>,
    /// Room for what a write puts into a block.
    wanted: Vec<u8>,
    /// Whether a checked block could not be read.
    unread: bool,
}

/// Reads what [`check_job`](crate::check_job) does, of the job of this key, but each block of the
/// target behind a byte: 1, and then its bytes; or 0, and no bytes, where it could not be read. Writes a line for each
/// checked block that is a fault or could not be read, ascending, as
/// `block 15 lost: wants write 239, holds write 68`; a line of the blocks that aren't checked, as
/// `unchecked 5-9 12-12`; and the line of the report of the blocks that were read, behind which
/// stands how many lines there are of each kind, as `report checked 9 faults 1 end whole first 5
/// lost 1`. It goes over the whole region, also where the job's faults are fatal.
///
/// Without a unit a checked block is at fault where it holds none of the writes that it may hold,
/// whole. With one, of so many bytes, it is where some unit of it is that of none of them: so a
/// target may be mapped that writes less than a block whole. A unit is a multiple of 512 bytes
/// that divides a block, or else the map is refused as a job past a limit
/// ([`Fault::OutOfLimits`]).
///
/// The status is 0; 1 where the report has faults; and 2 where a checked block could not be read,
/// where the input ends before the region, which the report says as `end read B`, and for every
/// refusal. These are those of `check_job`, and [`Fault::BadNotice`] where the byte before a block
/// is neither 0 nor 1. That and a failed read come behind the lines of the blocks before. An error
/// is that of a write.
pub fn map_job<R: Read, W: Write>(
    alloc: Global,
    key: Key,
    unit: Option<u32>,
    reader: &mut R,
    writer: &mut W,
) -> io::Result<u8>
    ensures { IfSome (R.remaining reader.old) (λ input. IfOk result
        (MapsJob key unit input (W.contents writer.old) (W.contents writer.new))) }
{
    let number = key.job;
    let map = match start(alloc, key, reader) {
        Ok(map) => map,
        Err(refusal) => return refuse(writer, refusal),
    };
    if unit_fits(unit, map.check.expected().rec().bs()) {
        go_over(map, unit, reader, writer)
    } else {
        refuse(writer, misfit(number))
    }
}

/// The refusal of a job whose blocks the unit doesn't fit.
fn misfit(job: JobNo) -> PrintedRefusal
    ensures { result ≡ misfit job }
{
    PrintedRefusal {
        fault: Fault::OutOfLimits,
        line_or_job: Some(job.0),
    }
}

/// What the target is checked against, with room for a block.
fn start<R: Read>(alloc: Global, key: Key, reader: &mut R) -> Result<Map, PrintedRefusal>
    ensures map { IfSome (R.remaining reader.old)
        (λ input. IfOk result (StartsMap key input (R.remaining reader.new))) }
    ensures none { IfSome (R.remaining reader.old) (λ input. IfErr result (CannotCheck key input)) }
    ensures ready { IfOk result IsReady }
{
    let asked = read_job(alloc, reader, key.job)?;
    let state = read_state(alloc, reader)?;
    let check = Recheck::new(alloc, &asked.rec, key, state.as_ref(), false)?;
    let Ok(bytes) = vec![in alloc; 0u8; asked.rec.bs() as usize] else {
        return Err(PrintedRefusal::from(Fault::NoMemory));
    };
    let Ok(wanted) = vec![in alloc; 0u8; asked.rec.bs() as usize] else {
        return Err(PrintedRefusal::from(Fault::NoMemory));
    };
    Ok(Map {
        check,
        bytes,
        wanted,
        unread: false,
    })
}

/// Goes over the blocks.
fn go_over<R: Read, W: Write>(
    mut map: Map,
    unit: Option<u32>,
    reader: &mut R,
    writer: &mut W,
) -> io::Result<u8>
    requires ready { IsReady map }
    requires fits { IsTrue (unit_fits unit map.check.expected.job.bs) }
    ensures { IfSome (R.remaining reader.old) (λ target. IfOk result
        (MapsTarget unit map.check.expected target (W.contents writer.old) (W.contents writer.new))) }
{
    let mut kinds = no_lines();
    for block in 0..map.check.expected().rec().blocks() {
        match take_block(&mut map, unit, block, reader) {
            Ok(Some(told)) => {
                write_told(writer, map.check.expected(), block, &map.bytes, &told)?;
                kinds = with_line(kinds, &told);
            }
            Ok(None) => {
                write_unchecked(writer, map.check.expected())?;
                let Map {
                    check,
                    bytes: _,
                    wanted: _,
                    unread,
                } = map;
                return write_report(writer, &check.finish_at(block), &kinds, unread);
            }
            Err(fault) => return refuse(writer, PrintedRefusal::from(fault)),
        }
    }
    write_unchecked(writer, map.check.expected())?;
    let Map {
        check,
        bytes: _,
        wanted: _,
        unread,
    } = map;
    write_report(writer, &check.finish(), &kinds, unread)
}

/// Reads the next block, and tells what it holds. `None` where the input ends in it.
fn take_block<R: Read>(
    map: &mut Map,
    unit: Option<u32>,
    block: u32,
    reader: &mut R,
) -> Result<Option<BlockVerdict>, Fault>
    requires goes_on { GoesOn map.old.check.expected map.old block }
    requires block { block < map.old.check.expected.job.blocks }
    requires fits { IsTrue (unit_fits unit map.old.check.expected.job.bs) }
    ensures goes_on { GoesOn map.old.check.expected map.new (block + 1) }
    ensures takes { Takes unit map.old.check.expected map.old map.new block
        (R.remaining reader.old) (R.remaining reader.new) result }
{
    match next_block(reader, &mut map.bytes)? {
        BlockRead::Bytes => {
            let told = tell_bytes(&mut map.check, unit, block, &map.bytes, &mut map.wanted);
            Ok(Some(told))
        }
        BlockRead::Unread => Ok(Some(tell_unread(map, block))),
        BlockRead::End => Ok(None),
    }
}

/// What is told of a block that could not be read.
fn tell_unread(map: &mut Map, block: u32) -> BlockVerdict
    ensures { TellsUnread map.old map.new block result }
{
    if map.check.wants(block) {
        map.unread = true;
        BlockVerdict::Unread
    } else {
        BlockVerdict::Unchecked
    }
}

/// Writes the line of the report with the sums by kind, and answers the status.
fn write_report<W: Write>(
    writer: &mut W,
    report: &CheckReport,
    kinds: &KindCounts,
    unread: bool,
) -> io::Result<u8>
    ensures line { OnOk result
        (Appends (W.contents writer.old) (W.contents writer.new) (last_line report.now kinds.now)) }
    ensures status { IfOk result (λ status. status ≡ status_with unread report.now) }
{
    write!(writer, "report ")?;
    write_report_words(writer, report)?;
    write_kinds(writer, kinds)?;
    writeln!(writer)?;
    writer.flush()?;
    Ok(status_with(unread, report))
}

/// The exit status of a report, where a checked block could not be read or none such.
pub(crate) fn status_with(unread: bool, report: &CheckReport) -> u8
    ensures { result ≡ status_with unread report.now }
{
    if unread { UNREAD } else { status_of(report) }
}
