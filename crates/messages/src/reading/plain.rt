//! Reading bodies that are numbers alone: each is what its numbers say, where they are all of the
//! bytes and in their ranges.

ghost use Rattle.std.specs.Prelude.{◌≡◌};
ghost use Rattle.messages.specs.declared.kind.PacketKind.TheVariants.{JobsOk, Start, Started, Trigger, NoState, StateAck, Stop, Stopped, WantState, NoSaved, Refused, CopyOk, Fetch, Granted};
ghost use Rattle.messages.specs.Bodies.{body_at};

use crate::body::Body;
use crate::reading::in_range;
use crate::refusal::{Act, Reason, Refusal, RefusedRequest};
use fc_base::{Attempt, Generation, JobNo, RunNo, ServerNo, split_u8, split_u32, split_u64};

pub(super) fn jobs_ok(bytes: &[u8]) -> Option<Body>
    ensures { result ≡ body_at JobsOk bytes.now }
{
    if bytes.len() != 12 {
        return None;
    }
    let (run, rest) = split_u64(bytes);
    let (jobs, _) = split_u32(rest);
    in_range(Body::JobsOk {
        run: RunNo(run),
        jobs,
    })
}

pub(super) fn start(bytes: &[u8]) -> Option<Body>
    ensures { result ≡ body_at Start bytes.now }
{
    if bytes.len() != 8 {
        return None;
    }
    let (run, _) = split_u64(bytes);
    in_range(Body::Start { run: RunNo(run) })
}

pub(super) fn started(bytes: &[u8]) -> Option<Body>
    ensures { result ≡ body_at Started bytes.now }
{
    if bytes.len() != 8 {
        return None;
    }
    let (run, _) = split_u64(bytes);
    in_range(Body::Started { run: RunNo(run) })
}

pub(super) fn trigger(bytes: &[u8]) -> Option<Body>
    ensures { result ≡ body_at Trigger bytes.now }
{
    if bytes.len() != 9 {
        return None;
    }
    let (run, rest) = split_u64(bytes);
    let (act, _) = split_u8(rest);
    let act = Act::numbered(act)?;
    in_range(Body::Trigger {
        run: RunNo(run),
        act,
    })
}

pub(super) fn no_state(bytes: &[u8]) -> Option<Body>
    ensures { result ≡ body_at NoState bytes.now }
{
    if bytes.len() != 16 {
        return None;
    }
    let (run, rest) = split_u64(bytes);
    let (job, rest) = split_u32(rest);
    let (jobs, _) = split_u32(rest);
    in_range(Body::NoState {
        run: RunNo(run),
        job: JobNo(job),
        jobs,
    })
}

pub(super) fn state_ack(bytes: &[u8]) -> Option<Body>
    ensures { result ≡ body_at StateAck bytes.now }
{
    if bytes.len() != 12 {
        return None;
    }
    let (run, rest) = split_u64(bytes);
    let (job, _) = split_u32(rest);
    in_range(Body::StateAck {
        run: RunNo(run),
        job: JobNo(job),
    })
}

pub(super) fn stop(bytes: &[u8]) -> Option<Body>
    ensures { result ≡ body_at Stop bytes.now }
{
    if bytes.len() != 8 {
        return None;
    }
    let (run, _) = split_u64(bytes);
    in_range(Body::Stop { run: RunNo(run) })
}

pub(super) fn stopped(bytes: &[u8]) -> Option<Body>
    ensures { result ≡ body_at Stopped bytes.now }
{
    if bytes.len() != 8 {
        return None;
    }
    let (run, _) = split_u64(bytes);
    in_range(Body::Stopped { run: RunNo(run) })
}

pub(super) fn want_state(bytes: &[u8]) -> Option<Body>
    ensures { result ≡ body_at WantState bytes.now }
{
    if bytes.len() != 20 {
        return None;
    }
    let (run, rest) = split_u64(bytes);
    let (attempt, rest) = split_u64(rest);
    let (job, _) = split_u32(rest);
    in_range(Body::WantState {
        run: RunNo(run),
        attempt: Attempt(attempt),
        job: JobNo(job),
    })
}

pub(super) fn no_saved(bytes: &[u8]) -> Option<Body>
    ensures { result ≡ body_at NoSaved bytes.now }
{
    if bytes.len() != 20 {
        return None;
    }
    let (run, rest) = split_u64(bytes);
    let (attempt, rest) = split_u64(rest);
    let (job, _) = split_u32(rest);
    in_range(Body::NoSaved {
        run: RunNo(run),
        attempt: Attempt(attempt),
        job: JobNo(job),
    })
}

pub(super) fn refused(bytes: &[u8]) -> Option<Body>
    ensures { result ≡ body_at Refused bytes.now }
{
    if bytes.len() != 34 {
        return None;
    }
    let (asked, rest) = split_u8(bytes);
    let (reason, rest) = split_u8(rest);
    let (job, rest) = split_u32(rest);
    let (jobs, rest) = split_u32(rest);
    let (run, rest) = split_u64(rest);
    let (attempt, rest) = split_u64(rest);
    let (value, _) = split_u64(rest);
    let asked = RefusedRequest::numbered(asked)?;
    let reason = Reason::numbered(reason)?;
    in_range(Body::Refused(Refusal {
        asked,
        reason,
        job: JobNo(job),
        jobs,
        run: RunNo(run),
        attempt: Attempt(attempt),
        value,
    }))
}

pub(super) fn copy_ok(bytes: &[u8]) -> Option<Body>
    ensures { result ≡ body_at CopyOk bytes.now }
{
    if bytes.len() != 16 {
        return None;
    }
    let (run, rest) = split_u64(bytes);
    let (server, rest) = split_u32(rest);
    let (job, _) = split_u32(rest);
    in_range(Body::CopyOk {
        run: RunNo(run),
        server: ServerNo(server),
        job: JobNo(job),
    })
}

pub(super) fn fetch(bytes: &[u8]) -> Option<Body>
    ensures { result ≡ body_at Fetch bytes.now }
{
    if bytes.len() != 8 {
        return None;
    }
    let (generation, _) = split_u64(bytes);
    in_range(Body::Fetch {
        generation: Generation(generation),
    })
}

pub(super) fn granted(bytes: &[u8]) -> Option<Body>
    ensures { result ≡ body_at Granted bytes.now }
{
    if bytes.len() != 8 {
        return None;
    }
    let (generation, _) = split_u64(bytes);
    in_range(Body::Granted {
        generation: Generation(generation),
    })
}
