//! Which writes count, by marks or by a list of completions, and whether a job can have come to
//! them.

ghost use Rattle.std.specs.Prelude.{◌≡◌, ◌-◌, ◌*◌, ◌<◌, ◌≤◌, length, filter, nat_le, nat_lt, bytes_eq, IsTrue};
ghost use Rattle.std.specs.List.{list_all};
ghost use Rattle.fc_base.specs.Counted.{has, counted, is_distinct};
ghost use Rattle.fc_base.specs.Marks.{floor_of, marks_of, ends_by, counted_by};
ghost use Rattle.verify_state.specs.State.{has_come, has_come_by};

use crate::distinct::{MAX_COMPLETIONS, is_distinct};
use fc_base::{JobRecord, MAX_WINDOW, Marks, Seq};

/// The first number of the last window of those issued.
pub(crate) fn floor_of(window: u32, issued: u64) -> u64
    ensures value { result ≡ floor_of window issued }
    ensures below { result ≤ issued }
{
    issued.saturating_sub(u64::from(window))
}

// ---- by marks

/// How many of the issued writes count: all below the floor, and one for each bit.
pub(crate) fn completed(window: u32, issued: u64, marks: &Marks) -> u64
    requires narrow { window ≤ MAX_WINDOW }
    requires ends { IsTrue (ends_by (issued - floor_of window issued) marks.now) }
    ensures { result ≡ length (counted_by window issued marks.now) }
{
    let _words = marks.words();
    floor_of(window, issued) + u64::from(marks.count())
}

/// Whether a write counts: it was issued, and lies below the floor or has a bit.
pub(crate) fn counts(window: u32, issued: u64, marks: &Marks, seq: Seq) -> bool
    requires { window ≤ MAX_WINDOW }
    ensures { result ≡ has (counted_by window issued marks.now) seq }
{
    let number = seq.0;
    let floor = floor_of(window, issued);
    if number >= issued {
        return false;
    }
    if number < floor {
        return true;
    }
    marks.has((number - floor) as usize)
}

/// Whether two marks count the same writes.
pub(crate) fn counts_alike(window: u32, issued: u64, one: &Marks, other: &Marks) -> bool
    requires one { IsTrue (ends_by (issued - floor_of window issued) one.now) }
    requires other { IsTrue (ends_by (issued - floor_of window issued) other.now) }
    ensures { result ≡ bytes_eq (counted_by window issued one.now)
        (counted_by window issued other.now) }
{
    one.words() == other.words()
}

/// Whether a job can have issued so many writes and have these marks.
#[tactic(auto, unfolding(crate::specs::State::has_come_by))]
pub(crate) fn has_come_by(rec: &JobRecord, issued: u64, marks: &Marks) -> bool
    ensures { result ≡ has_come_by rec.now issued marks.now }
{
    let window = rec.window();
    let floor = floor_of(window, issued);
    if issued > rec.total() {
        return false;
    }
    if !marks.ends_by(issued - floor) {
        return false;
    }
    issued - completed(window, issued, marks) <= u64::from(rec.depth())
}

// ---- by a list of completions

fn all_below(list: &[Seq], end: u64) -> bool
    ensures { result ≡ list_all (λ k. nat_lt k end) list.now }
{
    list.iter().all(|seq| seq.0 < end)
}

fn count_from(list: &[Seq], first: u64) -> u64
    ensures { result ≡ length (filter (nat_le first) list.now) }
{
    list.iter().filter(|seq| first <= seq.0).count() as u64
}

/// How many of the issued writes the list counts: all below the floor, and those of the list that
/// are not.
fn listed(window: u32, issued: u64, list: &[Seq]) -> u64
    requires distinct { IsTrue (is_distinct list.now) }
    requires below { IsTrue (list_all (λ k. nat_lt k issued) list.now) }
    ensures { result ≡ length (counted window issued list.now) }
{
    let floor = floor_of(window, issued);
    floor + count_from(list, floor)
}

/// Whether a job can have issued so many writes and have this list, of at most two of the widest
/// windows.
#[tactic(auto, unfolding(crate::specs::State::has_come))]
pub(crate) fn has_come(rec: &JobRecord, issued: u64, list: &[Seq]) -> bool
    requires { length list.now ≤ MAX_COMPLETIONS }
    ensures { result ≡ has_come rec.now issued list.now }
{
    if issued > rec.total() || !is_distinct(list) || !all_below(list, issued) {
        return false;
    }
    let window = rec.window();
    let completed = listed(window, issued, list);
    issued - completed <= u64::from(rec.depth())
        && list.len() as u64 == (2 * u64::from(window)).min(completed)
}

/// The marks of what a list counts.
pub(crate) fn marks_of(window: u32, issued: u64, list: &[Seq]) -> Marks
    requires { window ≤ MAX_WINDOW }
    ensures { result ≡ marks_of (has (counted window issued list.now)) (floor_of window issued) }
{
    let floor = floor_of(window, issued);
    let mut marks = Marks::NONE;
    for seq in list {
        if floor <= seq.0 && seq.0 < issued {
            marks.set((seq.0 - floor) as usize);
        }
    }
    let _words = marks.words();
    marks
}
