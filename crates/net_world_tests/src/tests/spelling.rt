//! The bytes of frames, as rows and `frames` spell them.

use std::slice::Iter;

/// Whether the bytes are those that hexadecimal digits say: behind `_` they go on, and `78*9` is the byte
/// 78 nine times.
pub fn are_spelled(bytes: &[u8], digits: &str) -> bool {
    let mut rest = bytes.iter();
    for part in digits.split('_') {
        let (part, times) = match part.split_once('*') {
            Some((part, times)) => (part, times.parse::<u32>().unwrap_or(0)),
            None => (part, 1),
        };
        for _ in 0..times {
            if !begins_with(&mut rest, part) {
                return false;
            }
        }
    }
    rest.next().is_none()
}

/// Whether the next bytes are those that digits say.
fn begins_with(bytes: &mut Iter<u8>, digits: &str) -> bool {
    let mut high = None;
    for digit in digits.chars() {
        let Some(digit) = digit.to_digit(16) else {
            return false;
        };
        high = match high {
            None => Some(digit),
            Some(high) => {
                if bytes.next().map(|byte| u32::from(*byte)) != paired(high, digit) {
                    return false;
                }
                None
            }
        };
    }
    high.is_none()
}

/// The byte of two digits.
fn paired(high: u32, low: u32) -> Option<u32> {
    high.checked_mul(16)?.checked_add(low)
}
