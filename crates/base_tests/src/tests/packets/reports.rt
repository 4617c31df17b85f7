//! Frames of reports of checks.

use super::rows::Rows;
use super::vectors::REPORTS;
use super::*;
use fc_base::{Attempt, Blocks, CheckReport, MAX_LISTED, ReportEnd, ReportParts};
use std::test::Fail;

/// The first even blocks, as many as are listed.
const EVEN: [u32; 32] = [
    0, 2, 4, 6, 8, 10, 12, 14, 16, 18, 20, 22, 24, 26, 28, 30, 32, 34, 36, 38, 40, 42, 44, 46, 48,
    50, 52, 54, 56, 58, 60, 62,
];

fn blocks_of(numbers: &[u32]) -> Option<Blocks> {
    let mut blocks = Blocks::new();
    for number in numbers {
        if blocks.len() == MAX_LISTED {
            return None;
        }
        blocks.push(*number);
    }
    Some(blocks)
}

/// What a report says: how many blocks were checked, and how many are faulty, the first of those, and its end.
type Said = (u32, u32, &'static [u32], ReportEnd);

fn report(said: Said) -> Option<CheckReport> {
    let (checked, faults, first, end) = said;
    let first = blocks_of(first)?;
    let parts = ReportParts {
        checked,
        faults,
        first,
        end,
    };
    CheckReport::make(parts).ok()
}

fn reported(job: u32, jobs: u32, said: Said) -> Option<PacketParts> {
    let report = report(said)?;
    let body = Body::Report {
        run: RunNo(1),
        attempt: Attempt(9),
        job: JobNo(job),
        jobs,
        report,
    };
    Some(from_server(0, body))
}

/// What each report says, the first of one job, and those of job 2 of 4.
static FIRST: Said = (1, 0, &[], ReportEnd::Whole);

static OTHERS: [Said; 3] = [
    (40, 33, &EVEN, ReportEnd::Whole),
    (2, 1, &[1], ReportEnd::AtFault),
    (2, 0, &[], ReportEnd::ReadFault(2)),
];

#[test]
fn frames_of_reports(rt: HostRuntime) -> Result<(), Fail> {
    let mut rows = Rows::new(rt.alloc(), &REPORTS);
    rows.compare_made(reported(0, 1, FIRST));
    for said in &OTHERS {
        rows.compare_made(reported(2, 4, *said));
    }
    rows.end()
}
