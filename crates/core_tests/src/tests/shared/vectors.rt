//! Frames to the byte that rows name, as another program made them.

/// The digits of the frame with this name.
pub fn digits(name: &str) -> Option<&'static str> {
    for (known, digits) in FRAMES.iter() {
        if *known == name {
            return Some(digits);
        }
    }
    None
}

/// Each frame with its digits, between the client, 8, and the mirror, 9.
static FRAMES: [(&str, &str); 8] = [
    // From the client to the mirror.
    (
        "Fetch 1",
        "464301140000000800000009000000080000000000000001",
    ),
    (
        "Fetch 2",
        "464301140000000800000009000000080000000000000002",
    ),
    // From the mirror to the client.
    (
        "Granted 1",
        "464301150000000900000008000000080000000000000001",
    ),
    (
        "Granted 2",
        "464301150000000900000008000000080000000000000002",
    ),
    // The state `first`, from the client to the mirror, and back.
    (
        "Copy first",
        "46430112000000080000000900000088464356320000000000000001_00*14_020000000002000000000\
        0000002000000000000000100000002000000020000000000000002cfc5d07f6f03c29bbf424132963fe\
        08d19a37d5757aaf520bf08119f05cd56d6_00*15_01_00*24",
    ),
    (
        "Copy first to the client",
        "46430112000000090000000800000088464356320000000000000001_00*14_020000000002000000000\
        0000002000000000000000100000002000000020000000000000002cfc5d07f6f03c29bbf424132963fe\
        08d19a37d5757aaf520bf08119f05cd56d6_00*15_01_00*24",
    ),
    // A state of the same key: one write is issued, and none is done.
    (
        "Copy another",
        "46430112000000080000000900000088464356320000000000000001_00*14_020000000002000000000\
        0000002000000000000000100000002000000020000000000000001cfc5d07f6f03c29bbf424132963fe\
        08d19a37d5757aaf520bf08119f05cd56d6_00*40",
    ),
    (
        "CopyOk",
        "464301130000000900000008000000100000000000000001_00*8",
    ),
];
