//! What no clause shows: that the limits, the table and the counting rule are the manual's.

use super::jobs::ONE_WRITE;
use fc_base::{
    Blocks, CheckReport, Fault, FaultSort, JobParts, JobRecord, Marks, ReportEnd, ReportParts, Seq,
    is_counted,
};
use std::test::Fail;

#[test]
fn limits_of_a_record(rt: HostRuntime) {
    assert!(rt; JobRecord::make(ONE_WRITE).is_some());
    let past = [
        JobParts { bs: 0, ..ONE_WRITE },
        JobParts {
            bs: 1000,
            ..ONE_WRITE
        },
        JobParts {
            bs: 66_048,
            ..ONE_WRITE
        },
        JobParts {
            blocks: 0,
            ..ONE_WRITE
        },
        JobParts {
            blocks: 65_537,
            ..ONE_WRITE
        },
        JobParts {
            total: 0,
            ..ONE_WRITE
        },
        JobParts {
            total: 1_000_001,
            ..ONE_WRITE
        },
        JobParts {
            depth: 0,
            ..ONE_WRITE
        },
        JobParts {
            depth: 65,
            window: 65,
            ..ONE_WRITE
        },
        JobParts {
            depth: 2,
            window: 1,
            ..ONE_WRITE
        },
        JobParts {
            window: 257,
            ..ONE_WRITE
        },
        JobParts {
            pattern: 1,
            ..ONE_WRITE
        },
    ];
    for parts in past {
        assert!(rt; JobRecord::make(parts).is_none());
    }
}

#[test]
fn names_and_numbers_of_faults(rt: HostRuntime) -> Result<(), Fail> {
    let table = [
        (Fault::JobTooLong, 1, "TooLong", FaultSort::Refusal),
        (Fault::JobNoMemory, 12, "NoMemory", FaultSort::Memory),
        (Fault::StateBadField, 32, "BadField", FaultSort::Refusal),
        (Fault::NoMemory, 35, "NoMemory", FaultSort::Memory),
        (Fault::FrameBadField, 43, "BadField", FaultSort::Refusal),
        (Fault::FrameTooLong, 44, "TooLong", FaultSort::Refusal),
        (Fault::FrameNoMemory, 46, "NoMemory", FaultSort::Memory),
        (Fault::SaveFault, 53, "SaveFault", FaultSort::Save),
        (Fault::NoJobs, 62, "NoJobs", FaultSort::Refusal),
        (Fault::NoMirror, 89, "NoMirror", FaultSort::Refusal),
        (Fault::WrongSeat, 93, "WrongSeat", FaultSort::Refusal),
        (Fault::BadNotice, 94, "BadNotice", FaultSort::Refusal),
        (Fault::EndOfInput, 95, "EndOfInput", FaultSort::Refusal),
        (Fault::NoJob, 96, "NoJob", FaultSort::Refusal),
    ];
    for (fault, number, name, sort) in table {
        assert!(rt; fault.number() == number && fault.name() == name && fault.sort() == sort);
        assert_eq!(rt; fault.to_string(rt.alloc())?.as_str(), name);
    }
    Ok(())
}

fn two(blocks: [u32; 2]) -> Blocks {
    let mut list = Blocks::new();
    list.push(blocks[0]);
    list.push(blocks[1]);
    list
}

#[test]
fn reports_that_are_none(rt: HostRuntime) -> Result<(), Fail> {
    let numbers = [
        (1, 2, [1, 2], ReportEnd::Whole),
        (65_537, 2, [1, 2], ReportEnd::Whole),
        (4, 3, [1, 2], ReportEnd::Whole),
        (4, 2, [2, 1], ReportEnd::Whole),
        (4, 2, [1, 1], ReportEnd::Whole),
        (4, 2, [1, 65_536], ReportEnd::Whole),
        (4, 2, [1, 2], ReportEnd::AtFault),
        (4, 2, [1, 2], ReportEnd::ReadFault(65_536)),
    ];
    for (checked, faults, blocks, end) in numbers {
        let parts = ReportParts {
            checked,
            faults,
            first: two(blocks),
            end,
        };
        let refused = CheckReport::make(parts)
            .err()
            .ok_or("the numbers don't fit together")?;
        assert_eq!(rt; refused.first.as_slice(), blocks.as_slice());
    }
    Ok(())
}

/// Writes 0 to 4 are issued at window 3, and completed in the order 2, 1, 0, 3, 4: the last three
/// completions alone would lose write 2.
#[test]
fn completions_out_of_order(rt: HostRuntime) {
    let all = [Seq(2), Seq(1), Seq(0), Seq(3), Seq(4)];
    let last = [Seq(0), Seq(3), Seq(4)];
    for number in 0..5 {
        let seq = Seq(number);
        assert!(rt; is_counted(&all, 3, 5, seq) && is_counted(&last, 3, 5, seq) == (number != 2));
    }
}

/// Three numbers at the edges of words, and their bits.
#[test]
fn bits_of_marks(rt: HostRuntime) {
    let mut marks = Marks::NONE;
    for bit in [0, 63, 64, 255] {
        marks.set(bit);
    }
    assert!(rt; marks.words() == [0x8000_0000_0000_0001, 1, 0, 0x8000_0000_0000_0000]);
    assert!(rt; marks.count() == 4 && marks.ends_by(256) && !marks.ends_by(255));
    marks.clear(255);
    assert!(rt; marks.count() == 3 && marks.ends_by(65) && !marks.ends_by(64));
    assert!(rt; marks.has(64) && !marks.has(65));
}
