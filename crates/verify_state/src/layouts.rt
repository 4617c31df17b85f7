//! What a state counts, as its bytes say it behind the place: a list of completions in layout 1,
//! the floor and the marks in layout 2.

ghost use Rattle.std.specs.Prelude.{◌≡◌, ◌+◌, ◌*◌, ◌≤◌, length, IsTrue};
ghost use Rattle.verify_state.specs.Front.{front_in};
ghost use Rattle.verify_state.specs.Layouts.{GivesListed, GivesMarked, GivesMarks};
ghost use Rattle.verify_state.specs.Reading.{words_at, has_ranges};

use crate::counting::{floor_of, has_come, has_come_by, marks_of};
use crate::distinct::MAX_COMPLETIONS;
use crate::reading::{Front, is_layout_1, u32_at, u64_at, words_at};
use fc_base::{Fault, Marks, Seq};

/// Bytes before the completions of layout 1.
const LIST_AT: usize = 100;

/// Bytes of layout 2.
pub(crate) const LENGTH: usize = 136;

/// The marks of what the state counts, or the first fault behind the place.
pub(crate) fn marks_in(front: &Front, bytes: &[u8]) -> Result<Marks, Fault>
    requires front { front.now ≡ front_in bytes.now }
    requires long { LIST_AT ≤ length bytes.now }
    requires ranges { IsTrue (has_ranges bytes.now) }
    ensures { GivesMarks result bytes.now }
{
    if is_layout_1(bytes) {
        return listed(front, bytes);
    }
    marked(front, bytes)
}

/// Layout 1: the marks of what its list counts, or the first fault behind the place.
fn listed(front: &Front, bytes: &[u8]) -> Result<Marks, Fault>
    requires front { front.now ≡ front_in bytes.now }
    requires long { LIST_AT ≤ length bytes.now }
    ensures { GivesListed result bytes.now }
{
    let count = u32_at(bytes, 96);
    let window = front.rec.window();
    if u64::from(count) > 2 * u64::from(window) {
        return Err(Fault::StateBadField);
    }
    let count = count as usize;
    let length = LIST_AT + 8 * count;
    if bytes.len() < length {
        return Err(Fault::StateShort);
    }
    if bytes.len() > length {
        return Err(Fault::StateTrailing);
    }
    let mut room = [Seq(0); MAX_COMPLETIONS];
    let completions = &mut room[..count];
    read_completions(bytes, completions);
    if !has_come(&front.rec, front.issued, completions) {
        return Err(Fault::Impossible);
    }
    Ok(marks_of(window, front.issued, completions))
}

/// Reads as many completions as there is room for, from the first on.
fn read_completions(bytes: &[u8], completions: &mut [Seq])
    requires { LIST_AT + 8 * length completions.old ≤ length bytes.now }
    ensures { completions.new ≡ words_at (length completions.old) 100 bytes.now }
{
    for (i, seq) in completions.iter_mut().enumerate() {
        *seq = Seq(u64_at(bytes, LIST_AT + 8 * i));
    }
}

/// Layout 2: the marks, or the first fault behind the place.
fn marked(front: &Front, bytes: &[u8]) -> Result<Marks, Fault>
    requires { front.now ≡ front_in bytes.now }
    ensures { GivesMarked result bytes.now }
{
    if bytes.len() < LENGTH {
        return Err(Fault::StateShort);
    }
    if bytes.len() > LENGTH {
        return Err(Fault::StateTrailing);
    }
    let marks = Marks::from_words(words_at(bytes, 104));
    let floor = floor_of(front.rec.window(), front.issued);
    if u64_at(bytes, 96) != floor {
        return Err(Fault::Impossible);
    }
    if !has_come_by(&front.rec, front.issued, &marks) {
        return Err(Fault::Impossible);
    }
    Ok(marks)
}
