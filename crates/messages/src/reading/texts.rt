//! Reading bodies that carry a job file.

ghost use Rattle.messages.specs.declared.kind.PacketKind.TheVariants.{Jobs, Verify};
ghost use Rattle.messages.specs.Bodies.{Reads, body_at};

use crate::body::Body;
use crate::ranges::{is_attempt, is_run};
use crate::text::Text;
use fc_base::{Attempt, Fault, MAX_TEXT, RunNo, split_u64};
use std::alloc::Global;

pub(super) fn jobs(alloc: Global, bytes: &[u8]) -> Result<Body, Fault>
    ensures { Reads result (body_at Jobs bytes.now) }
{
    if bytes.len() < 8 {
        return Err(Fault::FrameBadField);
    }
    let (run, text) = split_u64(bytes);
    let run = RunNo(run);
    if !is_run(run) || text.len() > MAX_TEXT {
        return Err(Fault::FrameBadField);
    }
    match Text::copied(alloc, text) {
        Ok(text) => Ok(Body::Jobs { run, text }),
        Err(_) => Err(Fault::FrameNoMemory),
    }
}

pub(super) fn verify(alloc: Global, bytes: &[u8]) -> Result<Body, Fault>
    ensures { Reads result (body_at Verify bytes.now) }
{
    if bytes.len() < 16 {
        return Err(Fault::FrameBadField);
    }
    let (run, rest) = split_u64(bytes);
    let (attempt, text) = split_u64(rest);
    let (run, attempt) = (RunNo(run), Attempt(attempt));
    if !is_run(run) || !is_attempt(attempt) || text.len() > MAX_TEXT {
        return Err(Fault::FrameBadField);
    }
    match Text::copied(alloc, text) {
        Ok(text) => Ok(Body::Verify { run, attempt, text }),
        Err(_) => Err(Fault::FrameNoMemory),
    }
}
