//! The frames that the nodes send, as another program made them.

use fc_base::ServerNo;
use messages::Node as Name;
use node_threads::{Hub, Line};

/// Two blocks, both in flight at once, in run 1, as all of these are.
const JOBS: &str = "\
    4643010100000008000000000000002e00000000000000015b615d0a72773d77726974650a62733d3531320a\
    73697a653d316b0a696f64657074683d320a";

const JOBS_OK: &str = "4643010200000000000000080000000c000000000000000100000001";

const START: &str = "464301030000000800000000000000080000000000000001";

const STARTED: &str = "464301040000000000000008000000080000000000000001";

/// The server is to ask for its cut.
const TRIGGER: &str = "46430105000000080000000000000009000000000000000101";

/// Two writes are issued, and write 0 is done.
const STATE: &str = "\
    4643010600000000000000080000008c00000001464356320000000000000001000000000000000000000000\
    00000200000000020000000000000002000000000000000100000002000000020000000000000002cfc5d07f\
    6f03c29bbf424132963fe08d19a37d5757aaf520bf08119f05cd56d600000000000000000000000000000001\
    000000000000000000000000000000000000000000000000";

const STATE_ACK: &str = "4643010800000008000000000000000c000000000000000100000000";

/// In attempt 1, by the kept state.
const VERIFY: &str = "\
    4643010b00000008000000000000003f000000000000000100000000000000015b615d0a72773d726561640a\
    62733d3531320a73697a653d316b0a7665726966795f73746174655f6c6f61643d310a";

const WANT_STATE: &str = "\
    4643010c0000000000000008000000140000000000000001000000000000000100000000";

const SAVED: &str = "\
    4643010d00000008000000000000009000000000000000014643563200000000000000010000000000000000\
    0000000000000200000000020000000000000002000000000000000100000002000000020000000000000002\
    cfc5d07f6f03c29bbf424132963fe08d19a37d5757aaf520bf08119f05cd56d6000000000000000000000000\
    00000001000000000000000000000000000000000000000000000000";

/// One block is checked, and there is no fault.
const REPORT: &str = "\
    4643010f00000000000000080000002900000000000000010000000000000001000000000000000100000000\
    00000000010000000000000000";

/// A Start of a run whose jobs the server hasn't got.
const REFUSED_WITHOUT_JOBS: &str = "\
    46430110000000000000000800000022033e0000000000000000000000000000000100000000000000000000\
    000000000000";

/// A Start of the last run.
const REFUSED_AS_OLD: &str = "\
    46430110000000000000000800000022033c0000000000000000000000000000000100000000000000000000\
    000000000001";

/// Of the stored run.
pub const STORED_RUN: [&str; 11] = [
    JOBS, JOBS_OK, START, STARTED, TRIGGER, STATE, STATE_ACK, VERIFY, WANT_STATE, SAVED, REPORT,
];

/// Of a start whose save failed with the old bytes left.
pub const BEFORE_ITS_SAVE: [&str; 8] = [
    JOBS,
    JOBS_OK,
    START,
    REFUSED_WITHOUT_JOBS,
    JOBS,
    JOBS_OK,
    START,
    STARTED,
];

/// And with the new bytes left.
pub const BEHIND_ITS_SAVE: [&str; 4] = [JOBS, JOBS_OK, START, REFUSED_AS_OLD];

const CLIENT: Name = Name::Client;

const SERVER: Name = Name::Server(ServerNo(0));

/// Who took and sent which frame of the stored run: the node, the place in its history, the frame taken,
/// and how many were sent.
pub const JOURNAL: [(Name, u64, Option<u64>, u64); 15] = [
    (CLIENT, 0, None, 1),
    (SERVER, 0, Some(0), 1),
    (CLIENT, 1, Some(1), 1),
    (SERVER, 1, Some(2), 1),
    (CLIENT, 2, Some(3), 0),
    (CLIENT, 3, None, 1),
    (SERVER, 7, Some(4), 1),
    (CLIENT, 4, Some(5), 1),
    (SERVER, 8, Some(6), 0),
    (CLIENT, 5, None, 1),
    (SERVER, 12, Some(7), 1),
    (CLIENT, 6, Some(8), 1),
    (SERVER, 13, Some(9), 0),
    (SERVER, 14, None, 1),
    (CLIENT, 7, Some(10), 0),
];

/// The number of the first frame that isn't as its digits say, or isn't there, or is there beyond them.
pub fn first_unlike_frame(hub: &Hub, frames: &[&str]) -> Option<usize> {
    for (i, digits) in frames.iter().enumerate() {
        match hub.frame(i as u64) {
            Some(bytes) => if !are_digits_of(digits.as_bytes(), bytes) {
                return Some(i);
            },
            None => return Some(i),
        }
    }
    if hub.len() == frames.len() {
        None
    } else {
        Some(frames.len())
    }
}

/// The digits are those of the bytes, two for each.
fn are_digits_of(digits: &[u8], bytes: &[u8]) -> bool {
    let pairs = digits.chunks(2);
    pairs.len() == bytes.len() && pairs.zip(bytes).all(|(pair, byte)| is_pair_of(pair, *byte))
}

fn is_pair_of(pair: &[u8], byte: u8) -> bool {
    match pair {
        [high, low] => *high == digit(byte >> 4) && *low == digit(byte & 15),
        _ => false,
    }
}

/// The digit of a number below 16.
fn digit(number: u8) -> u8 {
    b"0123456789abcdef"
        .get(number as usize)
        .copied()
        .unwrap_or(b'?')
}

/// The place of the first entry of the journal that isn't this one, or isn't there.
pub fn first_unlike_line(hub: &Hub, lines: &[(Name, u64, Option<u64>, u64)]) -> Option<usize> {
    let journal = hub.journal();
    for (i, (node, at, taken, sent)) in lines.iter().enumerate() {
        let line = Line {
            node: *node,
            at: *at,
            taken: *taken,
            sent: *sent,
        };
        if journal.get(i) != Some(&line) {
            return Some(i);
        }
    }
    None
}
