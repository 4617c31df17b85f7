//! Writing the frame of a packet.

ghost use Rattle.std.specs.Prelude.{◌≡◌, ◌+◌, ◌≤◌, ◌∷◌, [], ◌++◌, IsTrue, length, take, drop, OnOk, IfOk};
ghost use Rattle.std.specs.Int.{w8, w32};
ghost use Rattle.fc_base.specs.Report.{is_report};
ghost use Rattle.messages.specs.declared.body.Body.TheVariants.{Jobs, State, Verify, Saved, Report, Refused, Copy};
ghost use Rattle.fc_base.specs.Layouts.{bytes_of, spelled, spelled_blocks};
ghost use Rattle.messages.specs.declared.limits.TheConstants.{MAX_BODY};
ghost use Rattle.messages.specs.Kinds.{number_of};
ghost use Rattle.messages.specs.Nodes.{node_number};
ghost use Rattle.messages.specs.Bodies.{spelled_body, length_of, end_number, end_at};
ghost use Rattle.messages.specs.Packets.{header, header_of, spelling};

mod pieces;

use crate::body::Body;
use crate::kind::PacketKind;
use crate::node::Node;
use crate::packet::Packet;
use crate::refusal::Refusal;
use crate::text::Text;
use fc_base::{Attempt, JobNo, ReportEnd, ReportParts, RunNo, put_u8, put_u32, put_u64};
pub use pieces::encode_frame;
pub(crate) use pieces::put_piece;
use std::alloc::{AllocError, Global};
use verify_state::VerifyState;

/// How many bytes a header has.
pub(crate) const HEADER: usize = 16;

/// The version of the layout.
pub(crate) const VERSION: u8 = 1;

/// Where the length stands in a header.
const LENGTH_AT: usize = 12;

/// The bytes of a packet, its frame: the letters FC, version 1, kind, from and to, how many bytes
/// the body has, and the body. Every number has its high byte first.
pub fn encode(alloc: Global, packet: &Packet) -> Result<Vec<u8>, AllocError>
    ensures spelling { IfOk result (λ bytes. bytes.items ≡ spelling packet.now) }
    ensures len { IfOk result (λ bytes. length bytes.items ≡ HEADER + length_of packet.now.body) }
{
    let mut out = framed(alloc, packet)?;
    let len = (out.len() - HEADER) as u32;
    put_len(&mut out, len);
    Ok(out)
}

/// The frame of a packet, but for the length, which is 0.
fn framed(alloc: Global, packet: &Packet) -> Result<Vec<u8>, AllocError>
    ensures bytes { IfOk result
        (λ bytes. bytes.items
        ≡ header_of packet.now.from packet.now.to packet.now.body 0 ++ spelled_body packet.now.body) }
    ensures len { IfOk result
        (λ bytes. (length bytes.items ≡ 16 + length_of packet.now.body)
        × (length_of packet.now.body ≤ MAX_BODY)) }
{
    verify_state::one_spelling();
    packet.keeps_its_ranges();
    let mut out = Vec::new(alloc);
    put_header(&mut out, packet.kind(), packet.from(), packet.to())?;
    put_body(&mut out, packet.body())?;
    Ok(out)
}

/// Puts the length into its place.
fn put_len(frame: &mut [u8], len: u32)
    requires { 16 ≤ length frame.old }
    ensures { frame.new ≡ take 12 frame.old ++ (bytes_of w32 len ++ drop 16 frame.old) }
{
    frame[LENGTH_AT..HEADER].copy_from_slice(&len.to_be_bytes());
}

/// Appends the header of a body that has no bytes.
fn put_header(out: &mut Vec<u8>, kind: PacketKind, from: Node, to: Node) -> Result<(), AllocError>
    ensures { OnOk result
        (out.new.items ≡ out.old.items ++ spelled header
        (70 ∷ 67 ∷ 1 ∷ number_of kind ∷ node_number from ∷ node_number to ∷ 0 ∷ [])) }
{
    put_u8(out, b'F')?;
    put_u8(out, b'C')?;
    put_u8(out, VERSION)?;
    put_u8(out, kind.number())?;
    put_u32(out, from.number())?;
    put_u32(out, to.number())?;
    put_u32(out, 0)
}

/// Appends a body.
fn put_body(out: &mut Vec<u8>, body: &Body) -> Result<(), AllocError>
    ensures { OnOk result (out.new.items ≡ out.old.items ++ spelled_body body.now) }
{
    match body {
        Body::Jobs { run, text } => put_jobs(out, *run, text),
        Body::JobsOk { run, jobs } => {
            put_u64(out, run.0)?;
            put_u32(out, *jobs)
        }
        Body::Start { run } | Body::Started { run } | Body::Stop { run } | Body::Stopped { run } =>
            put_u64(out, run.0),
        Body::Trigger { run, act } => {
            put_u64(out, run.0)?;
            put_u8(out, act.number())
        }
        Body::State { jobs, state } => put_state(out, *jobs, state),
        Body::NoState { run, job, jobs } => {
            put_u64(out, run.0)?;
            put_u32(out, job.0)?;
            put_u32(out, *jobs)
        }
        Body::StateAck { run, job } => {
            put_u64(out, run.0)?;
            put_u32(out, job.0)
        }
        Body::Verify { run, attempt, text } => put_verify(out, *run, *attempt, text),
        Body::Saved { attempt, state } => put_saved(out, *attempt, state),
        Body::WantState { run, attempt, job } | Body::NoSaved { run, attempt, job } => {
            put_u64(out, run.0)?;
            put_u64(out, attempt.0)?;
            put_u32(out, job.0)
        }
        Body::Report {
            run,
            attempt,
            job,
            jobs,
            report,
        } => put_report(out, *run, *attempt, *job, *jobs, &report.parts()),
        Body::Refused(refusal) => put_refused(out, refusal),
        Body::Copy { state } => put_copy(out, state),
        Body::CopyOk { run, server, job } => {
            put_u64(out, run.0)?;
            put_u32(out, server.0)?;
            put_u32(out, job.0)
        }
        Body::Fetch { generation } | Body::Granted { generation } => put_u64(out, generation.0),
    }
}

fn put_jobs(out: &mut Vec<u8>, run: RunNo, text: &Text) -> Result<(), AllocError>
    ensures { OnOk result (out.new.items ≡ out.old.items ++ spelled_body (Jobs run text.now)) }
{
    put_u64(out, run.0)?;
    out.extend_from_slice(text.as_slice())
}

#[tactic(auto, unfolding(crate::specs::Bodies::spelled_state))]
fn put_state(out: &mut Vec<u8>, jobs: u32, state: &VerifyState) -> Result<(), AllocError>
    ensures { OnOk result (out.new.items ≡ out.old.items ++ spelled_body (State jobs state.now)) }
{
    put_u32(out, jobs)?;
    state.push_to(out)
}

#[tactic(auto, unfolding(crate::specs::Bodies::spelled_state))]
fn put_saved(out: &mut Vec<u8>, attempt: Attempt, state: &VerifyState) -> Result<(), AllocError>
    ensures { OnOk result
        (out.new.items ≡ out.old.items ++ spelled_body (Saved attempt state.now)) }
{
    put_u64(out, attempt.0)?;
    state.push_to(out)
}

#[tactic(auto, unfolding(crate::specs::Bodies::spelled_state))]
fn put_copy(out: &mut Vec<u8>, state: &VerifyState) -> Result<(), AllocError>
    ensures { OnOk result (out.new.items ≡ out.old.items ++ spelled_body (Copy state.now)) }
{
    state.push_to(out)
}

fn put_verify(
    out: &mut Vec<u8>,
    run: RunNo,
    attempt: Attempt,
    text: &Text,
) -> Result<(), AllocError>
    ensures { OnOk result
        (out.new.items ≡ out.old.items ++ spelled_body (Verify run attempt text.now)) }
{
    put_u64(out, run.0)?;
    put_u64(out, attempt.0)?;
    out.extend_from_slice(text.as_slice())
}

fn put_report(
    out: &mut Vec<u8>,
    run: RunNo,
    attempt: Attempt,
    job: JobNo,
    jobs: u32,
    report: &ReportParts,
) -> Result<(), AllocError>
    requires { IsTrue (is_report report.now) }
    ensures { OnOk result
        (out.new.items ≡ out.old.items ++ spelled_body (Report run attempt job jobs report.now)) }
{
    put_u64(out, run.0)?;
    put_u64(out, attempt.0)?;
    put_u32(out, job.0)?;
    put_u32(out, jobs)?;
    put_findings(out, report)
}

fn put_findings(out: &mut Vec<u8>, report: &ReportParts) -> Result<(), AllocError>
    requires { IsTrue (is_report report.now) }
    ensures { OnOk result
        (out.new.items ≡ out.old.items ++
        (spelled (w8 ∷ w32 ∷ w32 ∷ w32 ∷ w32 ∷ [])
        (end_number report.now.end ∷ end_at report.now.end ∷ report.now.checked ∷ report.now.faults
        ∷ length report.now.first ∷ []) ++ spelled_blocks report.now.first)) }
{
    let first = report.first.as_slice();
    put_end(out, report.end)?;
    put_u32(out, report.checked)?;
    put_u32(out, report.faults)?;
    put_u32(out, first.len() as u32)?;
    put_blocks(out, first)
}

fn put_end(out: &mut Vec<u8>, end: ReportEnd) -> Result<(), AllocError>
    ensures { OnOk result
        (out.new.items ≡ out.old.items ++
        (bytes_of w8 (end_number end) ++ bytes_of w32 (end_at end))) }
{
    let (number, at) = match end {
        ReportEnd::Whole => (0, 0),
        ReportEnd::AtFault => (1, 0),
        ReportEnd::ReadFault(block) => (2, block),
    };
    put_u8(out, number)?;
    put_u32(out, at)
}

fn put_blocks(out: &mut Vec<u8>, blocks: &[u32]) -> Result<(), AllocError>
    ensures { OnOk result (out.new.items ≡ out.old.items ++ spelled_blocks blocks.now) }
{
    for block in blocks {
        put_u32(out, *block)?;
    }
    Ok(())
}

fn put_refused(out: &mut Vec<u8>, refusal: &Refusal) -> Result<(), AllocError>
    ensures { OnOk result (out.new.items ≡ out.old.items ++ spelled_body (Refused refusal.now)) }
{
    let Refusal {
        asked,
        reason,
        job,
        jobs,
        run,
        attempt,
        value,
    } = *refusal;
    put_u8(out, asked.number())?;
    put_u8(out, reason.number())?;
    put_u32(out, job.0)?;
    put_u32(out, jobs)?;
    put_u64(out, run.0)?;
    put_u64(out, attempt.0)?;
    put_u64(out, value)
}
