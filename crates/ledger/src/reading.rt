//! Reading a ledger.

ghost use Rattle.std.specs.Prelude.{◌≡◌, ℕ, ◌+◌, ◌*◌, ◌<◌, ◌≤◌, ◌^◌, ◌++◌, List, length, take, drop, Some, IfOk, IsTrue, OnOk, MatchResult};
ghost use Rattle.std.specs.List.{AllByRecursion, flat_map};
ghost use Rattle.sha1.specs.Sha1.{sha1};
ghost use Rattle.fc_base.specs.declared.record.Kind.{Kind};
ghost use Rattle.fc_base.specs.declared.record.Verify.{Verify};
ghost use Rattle.verify_state.specs.Codes.{kind_code, verify_code};
ghost use Rattle.verify_state.specs.Spelling.{words};
ghost use Rattle.ledger.specs.declared.entry.RunWrite.{RunWrite};
ghost use Rattle.ledger.specs.Places.{Place};
ghost use Rattle.ledger.specs.Ranges.{IsRanged, IsRangedPlace};
ghost use Rattle.ledger.specs.Reading.{Reads, IsRead, IsRows, IsReadable, IsReadableEntry};
ghost use Rattle.ledger.specs.Spelling.{is_damaged, run_numbers, index_in, write_numbers, entry_numbers, numbers_of, table_of};

use crate::entry::{Entry, RunWrite};
use crate::fault::LedgerFault;
use crate::ledger::Ledger;
use crate::spelling::MAGIC;
use fc_base::{
    JobNo, JobParts, JobRecord, Key, Kind, MAX_BLOCKS, RunNo, Seq, ServerNo, Verify, split_u64,
};
use sha1::{DIGEST_LEN, Sha1};
use std::alloc::{AllocError, Global};

/// Numbers of a run.
const ROW: usize = 12;

/// The bytes before the digest, where it is theirs.
pub(crate) fn body_of(bytes: &[u8]) -> Result<&[u8], LedgerFault>
    ensures body { IfOk result (λ b. bytes.now ≡ b.now ++ sha1 b.now) }
    ensures read { (body : List ℕ) → bytes.now ≡ body ++ sha1 body
        → MatchResult result (λ b. b.now ≡ body) (λ _. ⊥) }
    ensures damaged { IsTrue (is_damaged bytes.now)
        → MatchResult result (λ _. ⊥) (λ fault. fault ≡ LedgerFault.Damaged) }
{
    if bytes.len() < DIGEST_LEN {
        return Err(LedgerFault::Short);
    }
    let (body, digest) = bytes.split_at(bytes.len() - DIGEST_LEN);
    if Sha1::digest(body).as_slice() != digest {
        return Err(LedgerFault::Damaged);
    }
    Ok(body)
}

/// The numbers of eight bytes that stand there.
pub(crate) fn words_of(alloc: Global, body: &[u8]) -> Result<Vec<u64>, AllocError>
    ensures { IfOk result (λ v. (ns : List ℕ) → AllByRecursion (λ n. n < 2 ^ 64) ns
        → body.now ≡ words ns → v.items ≡ ns) }
{
    let count = body.len() / 8;
    let mut numbers = Vec::with_capacity(alloc, count)?;
    let mut rest = body;
    for _ in 0..count {
        let (number, behind) = split_u64(rest);
        numbers.push(number)?;
        rest = behind;
    }
    Ok(numbers)
}

/// The ledger of these numbers.
pub(crate) fn ledger_in(alloc: Global, words: &[u64]) -> Result<Ledger, LedgerFault>
    ensures { (place : Place) → IsRangedPlace place
        → words.now ≡ numbers_of place (table_of place.entries) → IsRead result place }
{
    if words.len() < 4 {
        return Err(LedgerFault::Short);
    }
    let (head, rest) = words.split_at(4);
    if head[0] != MAGIC {
        return Err(LedgerFault::NoLedger);
    }
    if head[1] > u64::from(u32::MAX) {
        return Err(LedgerFault::BadBlockSize);
    }
    if head[2] > u64::from(MAX_BLOCKS) {
        return Err(LedgerFault::TooManyBlocks);
    }
    if head[3] > (rest.len() / ROW) as u64 {
        return Err(LedgerFault::Short);
    }
    let (rows, rest) = rest.split_at(ROW * head[3] as usize);
    let entries = entries_in(alloc, rows, head[2] as u32, rest)?;
    Ok(Ledger::with_entries(head[1] as u32, entries))
}

/// So many entries.
fn entries_in(
    alloc: Global,
    rows: &[u64],
    count: u32,
    words: &[u64],
) -> Result<Vec<Entry>, LedgerFault>
    ensures len { IfOk result (λ entries. length entries.items ≡ count) }
    ensures read { (table : List (List ℕ)) (entries : List (List RunWrite)) → IsRows rows.now table
        → length entries ≡ count → AllByRecursion (IsReadableEntry table) entries
        → words.now ≡ flat_map (entry_numbers table) entries
        → MatchResult result (λ v. v.items ≡ entries) (λ fault. fault ≡ LedgerFault.NoMemory) }
{
    if words.len() < count as usize {
        return Err(LedgerFault::Short);
    }
    let mut entries = Vec::with_capacity(alloc, count as usize)?;
    let mut rest = words;
    for _ in 0..count {
        let entry = entry_in(alloc, rows, rest)?;
        let (_, behind) = rest.split_at(1 + 2 * entry.as_slice().len());
        entries.push(entry)?;
        rest = behind;
    }
    Ok(entries)
}

/// The first entry.
fn entry_in(alloc: Global, rows: &[u64], words: &[u64]) -> Result<Entry, LedgerFault>
    ensures size { IfOk result (λ entry. 1 + 2 * length entry ≤ length words.now) }
    ensures read { (table : List (List ℕ)) (entry : List RunWrite) (more : List ℕ)
        → IsRows rows.now table → IsReadableEntry table entry
        → words.now ≡ entry_numbers table entry ++ more → Reads result entry }
{
    if words.is_empty() {
        return Err(LedgerFault::Short);
    }
    let (head, behind) = words.split_at(1);
    if head[0] > (behind.len() / 2) as u64 {
        return Err(LedgerFault::Short);
    }
    let mut entry = Entry::new(alloc);
    writes_in(rows, head[0] as usize, behind, &mut entry)?;
    Ok(entry)
}

/// So many writes, which are added to an entry.
fn writes_in(
    rows: &[u64],
    count: usize,
    words: &[u64],
    entry: &mut Entry,
) -> Result<(), LedgerFault>
    requires { 2 * count ≤ length words.now }
    ensures len { OnOk result (length entry.new ≡ length entry.old + count) }
    ensures read { (table : List (List ℕ)) (writes : List RunWrite) (more : List ℕ)
        → IsRows rows.now table → length writes ≡ count → AllByRecursion (IsReadable table) writes
        → words.now ≡ flat_map (write_numbers table) writes ++ more
        → MatchResult result (λ _. entry.new ≡ entry.old ++ writes)
        (λ fault. fault ≡ LedgerFault.NoMemory) }
{
    let mut rest = words;
    for _ in 0..count {
        let (pair, behind) = rest.split_at(2);
        let Some(write) = write_in(rows, pair[0], pair[1]) else {
            return Err(LedgerFault::BadRun);
        };
        entry.push(write)?;
        rest = behind;
    }
    Ok(())
}

/// The write of this number, of the run at this place of the table.
fn write_in(rows: &[u64], index: u64, seq: u64) -> Option<RunWrite>
    ensures { (table : List (List ℕ)) (w : RunWrite) → IsRows rows.now table → IsReadable table w
        → index ≡ index_in (run_numbers w) table → seq ≡ w.seq → result ≡ Some w }
{
    if index >= (rows.len() / ROW) as u64 {
        return None;
    }
    run_write(row_of(rows, index as usize), seq)
}

/// The row at this place.
fn row_of(rows: &[u64], index: usize) -> &[u64]
    requires { ROW * index + ROW ≤ length rows.now }
    ensures row { result.now ≡ take ROW (drop (ROW * index) rows.now) }
    ensures len { length result.now ≡ ROW }
{
    let (_, rest) = rows.split_at(ROW * index);
    let (row, _) = rest.split_at(ROW);
    row
}

/// The write of this number, of the run that these numbers say.
fn run_write(row: &[u64], seq: u64) -> Option<RunWrite>
    requires { length row.now ≡ ROW }
    ensures { (w : RunWrite) → IsRanged w → row.now ≡ run_numbers w → seq ≡ w.seq
        → result ≡ Some w }
{
    let key = key_in(row)?;
    let job = JobRecord::make(job_in(row)?)?;
    Some(RunWrite {
        key,
        job,
        seq: Seq(seq),
    })
}

/// Whose run it is.
fn key_in(row: &[u64]) -> Option<Key>
    requires { length row.now ≡ ROW }
    ensures { (w : RunWrite) → IsRanged w → row.now ≡ run_numbers w → result ≡ Some w.key }
{
    if row[1] > u64::from(u32::MAX) || row[2] > u64::from(u32::MAX) {
        return None;
    }
    Some(Key {
        run: RunNo(row[0]),
        server: ServerNo(row[1] as u32),
        job: JobNo(row[2] as u32),
    })
}

/// The settings of its job.
fn job_in(row: &[u64]) -> Option<JobParts>
    requires { length row.now ≡ ROW }
    ensures { (w : RunWrite) → IsRanged w → row.now ≡ run_numbers w → result ≡ Some w.job }
{
    let kind = kind_in(row[3])?;
    let verify = verify_in(row[4])?;
    if row[5] > u64::from(u8::MAX) {
        return None;
    }
    Some(JobParts {
        kind,
        verify,
        pattern: row[5] as u8,
        bs: row[6],
        blocks: row[7],
        total: row[8],
        seed: row[9],
        depth: row[10],
        window: row[11],
    })
}

/// The order of a code.
fn kind_in(code: u64) -> Option<Kind>
    ensures { (kind : Kind) → code ≡ kind_code kind → result ≡ Some kind }
{
    match code {
        0 => Some(Kind::Sequential),
        1 => Some(Kind::RandomMap),
        2 => Some(Kind::RandomFree),
        _ => None,
    }
}

/// What a code says is written.
fn verify_in(code: u64) -> Option<Verify>
    ensures { (verify : Verify) → code ≡ verify_code verify → result ≡ Some verify }
{
    match code {
        0 => Some(Verify::Stamp),
        1 => Some(Verify::Pattern),
        _ => None,
    }
}
