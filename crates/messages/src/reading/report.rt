//! Reading the report of a check.

ghost use Rattle.std.specs.Prelude.{◌≡◌, ◌*◌, ◌≤◌, ◌∷◌, [], length, drop};
ghost use Rattle.messages.specs.declared.kind.PacketKind.TheVariants.{Report};
ghost use Rattle.fc_base.specs.Layouts.{numbers, blocks_in};
ghost use Rattle.messages.specs.Bodies.{body_at, layout, end_numbered};

use crate::body::Body;
use crate::reading::in_range;
use fc_base::{
    Attempt, Blocks, CheckReport, JobNo, MAX_LISTED, ReportEnd, ReportParts, RunNo, split_u8,
    split_u32, split_u64,
};

/// How many bytes a report has before its blocks.
const FIELDS: usize = 41;

/// The numbers of a report, as they stand.
#[derive(Clone, Copy)]
struct ReportFields {
    run: u64,
    attempt: u64,
    job: u32,
    jobs: u32,
    end: u8,
    at: u32,
    checked: u32,
    faults: u32,
    count: u32,
}

pub(super) fn report(bytes: &[u8]) -> Option<Body>
    ensures { result ≡ body_at Report bytes.now }
{
    if bytes.len() < FIELDS {
        return None;
    }
    let (fields, blocks) = report_fields(bytes);
    let end = end_numbered(fields.end, fields.at)?;
    if fields.count as usize > MAX_LISTED {
        return None;
    }
    if blocks.len() != 4 * fields.count as usize {
        return None;
    }
    let parts = ReportParts {
        checked: fields.checked,
        faults: fields.faults,
        first: blocks_of(fields.count, blocks),
        end,
    };
    let report = match CheckReport::make(parts) {
        Ok(report) => report,
        Err(_) => return None,
    };
    in_range(Body::Report {
        run: RunNo(fields.run),
        attempt: Attempt(fields.attempt),
        job: JobNo(fields.job),
        jobs: fields.jobs,
        report,
    })
}

fn report_fields(bytes: &[u8]) -> (ReportFields, &[u8])
    requires { 41 ≤ length bytes.now }
    ensures numbers { result.0.run ∷ result.0.attempt ∷ result.0.job ∷ result.0.jobs ∷ result.0.end
        ∷ result.0.at ∷ result.0.checked ∷ result.0.faults ∷ result.0.count ∷ []
        ≡ numbers (layout Report) bytes.now }
    ensures rest { result.1.now ≡ drop 41 bytes.now }
{
    let (run, rest) = split_u64(bytes);
    let (attempt, rest) = split_u64(rest);
    let (job, rest) = split_u32(rest);
    let (jobs, rest) = split_u32(rest);
    let (end, rest) = split_u8(rest);
    let (at, rest) = split_u32(rest);
    let (checked, rest) = split_u32(rest);
    let (faults, rest) = split_u32(rest);
    let (count, rest) = split_u32(rest);
    let fields = ReportFields {
        run,
        attempt,
        job,
        jobs,
        end,
        at,
        checked,
        faults,
        count,
    };
    (fields, rest)
}

fn end_numbered(number: u8, at: u32) -> Option<ReportEnd>
    ensures { result ≡ end_numbered number at }
{
    match number {
        0 if at == 0 => Some(ReportEnd::Whole),
        1 if at == 0 => Some(ReportEnd::AtFault),
        2 => Some(ReportEnd::ReadFault(at)),
        _ => None,
    }
}

/// So many blocks, from the front of the bytes.
fn blocks_of(count: u32, bytes: &[u8]) -> Blocks
    requires few { count ≤ MAX_LISTED }
    requires there { 4 * count ≤ length bytes.now }
    ensures { result ≡ blocks_in count bytes.now }
{
    let mut found = Blocks::new();
    let mut rest = bytes;
    for _ in 0..count {
        let (block, after) = split_u32(rest);
        found.push(block);
        rest = after;
    }
    found
}
