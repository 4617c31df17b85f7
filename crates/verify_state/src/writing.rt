//! Writing a verify state.

ghost use Rattle.std.specs.Prelude.{◌≡◌, ◌++◌, OnOk};
ghost use Rattle.verify_state.specs.Codes.{kind_code, verify_code};
ghost use Rattle.verify_state.specs.Spelling.{words as spelled, key_bytes, job_bytes};

use fc_base::{JobRecord, Key, Kind, Verify, put_u32, put_u64};
use std::alloc::AllocError;

pub(crate) fn kind_code(kind: Kind) -> u8
    ensures { result ≡ kind_code kind }
{
    match kind {
        Kind::Sequential => 0,
        Kind::RandomMap => 1,
        Kind::RandomFree => 2,
    }
}

pub(crate) fn verify_code(verify: Verify) -> u8
    ensures { result ≡ verify_code verify }
{
    match verify {
        Verify::Stamp => 0,
        Verify::Pattern => 1,
    }
}

pub(crate) fn put_key(bytes: &mut Vec<u8>, key: &Key) -> Result<(), AllocError>
    ensures { OnOk result (bytes.new.items ≡ bytes.old.items ++ key_bytes key.now) }
{
    put_u64(bytes, key.run.0)?;
    put_u32(bytes, key.server.0)?;
    put_u32(bytes, key.job.0)?;
    Ok(())
}

pub(crate) fn put_job(bytes: &mut Vec<u8>, rec: &JobRecord) -> Result<(), AllocError>
    ensures { OnOk result (bytes.new.items ≡ bytes.old.items ++ job_bytes rec.now) }
{
    bytes.extend_from_slice(&[
        kind_code(rec.kind()),
        verify_code(rec.verify()),
        rec.pattern(),
        0,
    ])?;
    put_u32(bytes, rec.bs())?;
    put_u32(bytes, rec.blocks())?;
    put_u64(bytes, rec.total())?;
    put_u64(bytes, rec.seed())?;
    put_u32(bytes, rec.depth())?;
    put_u32(bytes, rec.window())?;
    Ok(())
}

pub(crate) fn put_words(bytes: &mut Vec<u8>, words: &[u64; 4]) -> Result<(), AllocError>
    ensures { OnOk result (bytes.new.items ≡ bytes.old.items ++ spelled words.now) }
{
    for word in words {
        put_u64(bytes, *word)?;
    }
    Ok(())
}
