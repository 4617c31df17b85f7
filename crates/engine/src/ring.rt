//! Marks on the slots of a ring, 64 at a time.

ghost use Rattle.std.specs.Prelude.{◌≡◌, ℕ, ◌+◌, ◌%◌, ◌<◌, ◌≤◌, nat_lt};
ghost use Rattle.fc_base.specs.Marks.{is_marked};
ghost use Rattle.engine.specs.InFlight.{is_set};

use fc_base::{MAX_WINDOW, Marks};

/// The marks of 64 slots from this one on, the lowest bit first, in a ring of `length` slots: the
/// first slot follows the last. Bits that would go round it again say nothing.
pub(crate) fn around(marks: &Marks, first: usize, length: usize) -> u64
    requires within { first < length }
    requires most { length ≤ MAX_WINDOW }
    ensures { (i : ℕ) → i < 64 → i < length →
        is_set result i ≡ is_marked marks.now ((first + i) % length) }
{
    let words = marks.words();
    let ahead = length - first;
    if ahead >= 64 {
        return from(words, first);
    }
    (from(words, first) & low_bits(ahead as u64)) | (words[0] << ahead)
}

/// The marks of 64 slots from this one on, the lowest bit first. Bits past the last slot say
/// nothing.
fn from(words: [u64; 4], first: usize) -> u64
    requires { first < MAX_WINDOW }
    ensures { (i : ℕ) → i < 64 → first + i < MAX_WINDOW → is_set result i
        ≡ is_marked words (first + i) }
{
    let word = first / 64;
    let shift = first % 64;
    let low = words[word] >> shift;
    if shift == 0 || word == 3 {
        return low;
    }
    low | (words[word + 1] << (64 - shift))
}

/// A word whose lowest `count` bits are set, all where there are fewer than that.
pub(crate) fn low_bits(count: u64) -> u64
    ensures { (i : ℕ) → i < 64 → is_set result i ≡ nat_lt i count }
{
    if count < 64 {
        !(u64::MAX << count)
    } else {
        u64::MAX
    }
}
