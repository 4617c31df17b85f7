//! The frames of a run of one job at server 0, and what else rows name: as another program made them.

use super::mirror_frames;

/// The digits of the frame with this name; none for no frame.
pub fn digits_of(name: &str) -> &'static str {
    match digits_in(&FRAMES, name) {
        Some(digits) => digits,
        None => digits_in(&mirror_frames::FRAMES, name).unwrap_or("none"),
    }
}

/// The digits of the frame of these with this name.
fn digits_in(frames: &[(&'static str, &'static str)], name: &str) -> Option<&'static str> {
    for (known, digits) in frames.iter() {
        if *known == name {
            return Some(*digits);
        }
    }
    None
}

/// The job file with this name: the one by which the run writes, and the one by which it is checked.
pub fn text_of(name: &str) -> &'static str {
    match name {
        "write" => "[a]\nrw=write\nbs=512\nsize=1k\niodepth=2\n",
        "read" => "[a]\nrw=read\nbs=512\nsize=1k\nverify_state_load=1\n",
        _ => "",
    }
}

/// In the order in which they are sent: those of the run, between the client, 8, and server 0, and the two pieces of a
/// Jobs whose text has 2,000 bytes. `first` is the state in State.
static FRAMES: [(&str, &str); 14] = [
    (
        "Jobs",
        "4643010100000008000000000000002e00000000000000015b615d0a72773d77726974650a62733d35\
        31320a73697a653d316b0a696f64657074683d320a",
    ),
    (
        "JobsOk",
        "4643010200000000000000080000000c000000000000000100000001",
    ),
    ("Start", "464301030000000800000000000000080000000000000001"),
    (
        "Started",
        "464301040000000000000008000000080000000000000001",
    ),
    (
        "Trigger",
        "46430105000000080000000000000009000000000000000101",
    ),
    (
        "State",
        "4643010600000000000000080000008c00000001464356320000000000000001_00*14_02000000000\
        20000000000000002000000000000000100000002000000020000000000000002cfc5d07f6f03c29bb\
        f424132963fe08d19a37d5757aaf520bf08119f05cd56d6_00*15_01_00*24",
    ),
    (
        "StateAck",
        "4643010800000008000000000000000c000000000000000100000000",
    ),
    (
        "Verify",
        "4643010b00000008000000000000003f000000000000000100000000000000015b615d0a72773d7265\
        61640a62733d3531320a73697a653d316b0a7665726966795f73746174655f6c6f61643d310a",
    ),
    (
        "WantState",
        "4643010c0000000000000008000000140000000000000001000000000000000100000000",
    ),
    (
        "Saved",
        "4643010d0000000800000000000000900000000000000001464356320000000000000001_00*14_020\
        0000000020000000000000002000000000000000100000002000000020000000000000002cfc5d07f6\
        f03c29bbf424132963fe08d19a37d5757aaf520bf08119f05cd56d6_00*15_01_00*24",
    ),
    (
        "Report",
        "4643010f000000000000000800000029000000000000000100000000000000010000000000000001_0\
        0*8_01_00*8",
    ),
    (
        "Piece0",
        "46430111000000080000000000000421010000000000000001_00*18_07d8_00*11_015b615d0a7277\
        3d77726974650a62733d3531320a73697a653d316b0a696f64657074683d320a23_78*977",
    ),
    (
        "Piece1",
        "464301110000000800000000000003f9010000000000000001_00*18_07d800000400_78*983_0a",
    ),
    (
        "first",
        "464356320000000000000001_00*14_020000000002000000000000000200000000000000010000000\
        2000000020000000000000002cfc5d07f6f03c29bbf424132963fe08d19a37d5757aaf520bf08119f0\
        5cd56d6_00*15_01_00*24",
    ),
];
