//! Writing a ledger.

ghost use Rattle.std.specs.Prelude.{◌≡◌, ◌<◌, ◌^◌, ◌++◌, [], IfOk, OnOk, length, bytes_eq};
ghost use Rattle.std.specs.List.{flat_map, list_any, AllByRecursion};
ghost use Rattle.verify_state.specs.Codes.{kind_code, verify_code};
ghost use Rattle.verify_state.specs.Spelling.{words};
ghost use Rattle.ledger.specs.Spelling.{run_numbers, with_run, with_runs, with_entries, table_of, index_in, write_numbers, entry_numbers, spelling};
ghost use Rattle.ledger.specs.Ranges.{IsRanged, IsRangedEntry, IsRangedPlace};

use crate::entry::{Entry, RunWrite};
use crate::runs::{Run, Runs};
use fc_base::{Kind, Verify, put_u64};
use std::alloc::{AllocError, Global};

/// What the bytes of a ledger begin with: `FCLEDGR1`.
pub(crate) const MAGIC: u64 = 0x4643_4c45_4447_5231;

pub(crate) fn kind_code(kind: Kind) -> u64
    ensures { result ≡ kind_code kind }
{
    match kind {
        Kind::Sequential => 0,
        Kind::RandomMap => 1,
        Kind::RandomFree => 2,
    }
}

pub(crate) fn verify_code(verify: Verify) -> u64
    ensures { result ≡ verify_code verify }
{
    match verify {
        Verify::Stamp => 0,
        Verify::Pattern => 1,
    }
}

/// A number has eight bytes, which a clause doesn't know of a field.
fn word(number: u64) -> u64
    ensures value { result ≡ number }
    ensures range { result < 2 ^ 64 }
{
    number
}

/// A number of four bytes.
fn half(number: u32) -> u64
    ensures value { result ≡ number }
    ensures range { result < 2 ^ 32 }
{
    u64::from(number)
}

/// A number of one byte.
fn octet(number: u8) -> u64
    ensures value { result ≡ number }
    ensures range { result < 256 }
{
    u64::from(number)
}

/// The run of a write, as numbers.
fn run_of(write: &RunWrite) -> Run
    ensures value { result ≡ run_numbers write.now }
    ensures ranged { IsRanged write.now }
{
    let job = write.job.parts();
    let _seq = word(write.seq.0);
    [
        word(write.key.run.0),
        half(write.key.server.0),
        half(write.key.job.0),
        kind_code(job.kind),
        verify_code(job.verify),
        octet(job.pattern),
        job.bs,
        job.blocks,
        job.total,
        word(job.seed),
        job.depth,
        job.window,
    ]
}

/// Adds the runs of writes that aren't there yet.
fn add_runs(table: &mut Runs, writes: &[RunWrite]) -> Result<(), AllocError>
    ensures { OnOk result (table.new ≡ with_runs table.old writes.now) }
{
    for write in writes {
        add_run(table, write)?;
    }
    Ok(())
}

/// Adds the run of a write, where it isn't there yet.
fn add_run(table: &mut Runs, write: &RunWrite) -> Result<(), AllocError>
    ensures { OnOk result (table.new ≡ with_run table.old write.now) }
{
    table.add(run_of(write))
}

/// The runs that entries name, each once.
pub(crate) fn table_of(alloc: Global, entries: &[Entry]) -> Result<Runs, AllocError>
    ensures { IfOk result (λ table. table ≡ table_of entries.now) }
{
    let mut table = Runs::new(alloc);
    for entry in entries {
        add_runs(&mut table, entry.as_slice())?;
    }
    Ok(table)
}

/// Adds numbers.
pub(crate) fn put_words(out: &mut Vec<u8>, numbers: &[u64]) -> Result<(), AllocError>
    ensures { OnOk result (out.new.items ≡ out.old.items ++ words numbers.now) }
{
    for number in numbers {
        put_u64(out, *number)?;
    }
    Ok(())
}

/// Adds the rows of a table.
pub(crate) fn put_table(out: &mut Vec<u8>, table: &[Run]) -> Result<(), AllocError>
    ensures { OnOk result (out.new.items ≡ out.old.items ++ words (flat_map (λ row. row) table.now)) }
{
    for row in table {
        put_words(out, row)?;
    }
    Ok(())
}

/// Adds an entry.
fn put_entry(out: &mut Vec<u8>, table: &Runs, writes: &[RunWrite]) -> Result<(), AllocError>
    ensures bytes { OnOk result (out.new.items ≡ out.old.items
        ++ words (entry_numbers table.now writes.now)) }
    ensures ranged { OnOk result (IsRangedEntry writes.now) }
{
    put_u64(out, writes.len() as u64)?;
    for write in writes {
        put_write(out, table, write)?;
    }
    Ok(())
}

/// Adds a write.
fn put_write(out: &mut Vec<u8>, table: &Runs, write: &RunWrite) -> Result<(), AllocError>
    ensures bytes { OnOk result (out.new.items ≡ out.old.items
        ++ words (write_numbers table.now write.now)) }
    ensures ranged { IsRanged write.now }
{
    let place = table.place_of(&run_of(write));
    put_words(out, &[place, write.seq.0])
}

/// Adds entries.
pub(crate) fn put_entries(
    out: &mut Vec<u8>,
    table: &Runs,
    entries: &[Entry],
) -> Result<(), AllocError>
    ensures bytes { OnOk result (out.new.items ≡ out.old.items
        ++ words (flat_map (entry_numbers table.now) entries.now)) }
    ensures ranged { OnOk result (AllByRecursion IsRangedEntry entries.now) }
{
    for entry in entries {
        put_entry(out, table, entry.as_slice())?;
    }
    Ok(())
}
