//! `drive tour`: a job file, the tiles that are begun and what becomes of their writes in, their orders and verify states
//! out.

ghost use Rattle.std.specs.Prelude.{◌<◌, IfOk, IfSome};
ghost use Rattle.std.specs.Io.Buffered.{reader_remaining};
ghost use Rattle.targets.specs.TourJobs.{FinishesTour, ToursJob};

use crate::drive_write::refuse;
use crate::job_setup::read_job;
use crate::tour::{TourEnd, tour_blocks};
use fc_base::{Fault, JobNo, MAX_JOBS};
use job_file::Phase;
use program_io::PrintedRefusal;
use std::alloc::Global;
use std::io;
use std::io::{BufReader, Read, Write};

/// The exit status where the input has ended and no tile is open.
const OVER: u8 = 0;

/// Reads a job file behind its length, four bytes, and writes its job of this number as [`tour_blocks`] does, once for
/// each tile, by what the reader tells behind the text. The status is 0 where the input has ended and no tile is open.
///
/// An order is the number of its tile, that of the write and its block, eight bytes each, and the block's bytes; a
/// state is its 136 bytes and the number of its tile. Below tile 2^56 the first byte of an order is 0; that of a state
/// is `F`.
///
/// A refusal is written as a line, `refused CODE NAME` with the line or the job where the fault has one, and the
/// status is 2: before the first order where the job file doesn't come whole ([`Fault::EndOfInput`]) or can't be read
/// ([`Fault::ReadError`]), has a fault, has no such job ([`Fault::NoJob`]) or one that reads ([`Fault::WrongPhase`]);
/// behind the orders and states where the tour is refused. An error is that of a write.
pub fn tour_job<R: Read, W: Write>(
    alloc: Global,
    job: JobNo,
    reader: &mut BufReader<R>,
    writer: &mut W,
) -> io::Result<u8>
    requires { job < MAX_JOBS }
    ensures { IfSome (reader_remaining R.remaining reader.old) (λ input. IfOk result
        (ToursJob job input (W.contents writer.old) (W.contents writer.new))) }
{
    let asked = match read_job(alloc, reader, job) {
        Ok(asked) => asked,
        Err(refusal) => return refuse(writer, refusal),
    };
    match asked.phase {
        Phase::Write => {
            let end = tour_blocks(alloc, job, &asked.rec, reader, writer)?;
            finish(writer, end)
        }
        Phase::Read => refuse(writer, PrintedRefusal::from(Fault::WrongPhase)),
    }
}

/// Writes what stands behind a tour, and answers the exit status.
fn finish<W: Write>(writer: &mut W, end: TourEnd) -> io::Result<u8>
    ensures { IfOk result (FinishesTour end (W.contents writer.old) (W.contents writer.new)) }
{
    match end {
        TourEnd::Over => {
            writer.flush()?;
            Ok(OVER)
        }
        TourEnd::Refused(fault) => refuse(writer, PrintedRefusal::from(fault)),
    }
}
