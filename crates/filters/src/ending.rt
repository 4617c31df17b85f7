//! How an attempt ended, as it is told.

ghost use Rattle.std.specs.Prelude.{◌≡◌, ◌≤◌, length};
ghost use Rattle.std.specs.List.{flat_map};
ghost use Rattle.filters.specs.Written.{Puts};
ghost use Rattle.attempt_ends.specs.declared.place.TheConstants.{PLACES};
ghost use Rattle.filters.specs.EndTells.{bare, numbers_of, end_names, end_counts, place_bytes, word_number, attempt_bytes, sums_bytes, word_bytes, told_bytes};

use crate::asking::EndsAsked;
use crate::kinds::OutRecordKind;
use crate::output::Output;
use crate::writing::{put_head, put_u32, put_u64};
use attempt_ends::{AttemptEnd, EndAt, Place, PlaceEnd, Sums, attempt_end, sums_of};

/// The number of an end at a place, and those that go with it; 0 where one doesn't.
#[derive(Clone, Copy, Debug)]
pub(crate) struct EndNumbers {
    pub end: u32,
    /// How many blocks were checked.
    pub checked: u32,
    /// How many of them were at fault.
    pub faults: u32,
    /// The block that could not be read.
    pub block: u32,
    /// The reason of a refusal.
    pub reason: u32,
}

/// An end that has no numbers with it.
fn bare(end: u32) -> EndNumbers
    ensures { result ≡ bare end }
{
    EndNumbers {
        end,
        checked: 0,
        faults: 0,
        block: 0,
        reason: 0,
    }
}

/// The numbers of an end at a place.
fn numbers_of(end: PlaceEnd) -> EndNumbers
    ensures { result ≡ numbers_of end }
{
    match end {
        PlaceEnd::Refused(reason) => EndNumbers {
            reason: u32::from(reason.number()),
            ..bare(1)
        },
        PlaceEnd::Unasked => bare(2),
        PlaceEnd::Unanswered => bare(3),
        PlaceEnd::InFull(counts) => EndNumbers {
            checked: counts.checked,
            faults: counts.faults,
            ..bare(4)
        },
        PlaceEnd::Unread(counts, block) => EndNumbers {
            checked: counts.checked,
            faults: counts.faults,
            block,
            ..bare(5)
        },
        PlaceEnd::Nothing => bare(6),
        PlaceEnd::Faults(counts) => EndNumbers {
            checked: counts.checked,
            faults: counts.faults,
            ..bare(7)
        },
        PlaceEnd::Sound(checked) => EndNumbers { checked, ..bare(8) },
    }
}

/// The number of the word for all places.
fn word_number(end: AttemptEnd) -> u8
    ensures { result ≡ word_number end }
{
    match end {
        AttemptEnd::Sound => 0,
        AttemptEnd::Faults => 1,
        AttemptEnd::NotWhole => 2,
        AttemptEnd::NoVerdict => 3,
    }
}

/// Writes how an attempt ended: place by place, and then in one word.
#[tactic(auto, using(crate::proofs::OutputLemmas::puts_both))]
pub(crate) fn put_ends<W: Output>(writer: &mut W, asked: &EndsAsked, ends: &[EndAt])
    requires { length ends.now ≤ PLACES }
    ensures { Puts (W.written writer.old) (W.written writer.new)
        (told_bytes asked.now ends.now) }
{
    put_places(writer, asked, ends);
    put_word(writer, asked, attempt_end(ends), sums_of(ends))
}

/// Writes how an attempt ended at its places.
fn put_places<W: Output>(writer: &mut W, asked: &EndsAsked, ends: &[EndAt])
    ensures { Puts (W.written writer.old) (W.written writer.new)
        (flat_map (place_bytes asked.now) ends.now) }
{
    for end in ends {
        put_place(writer, asked, end);
    }
}

/// Writes how an attempt ended at a place.
#[tactic(auto, using(crate::proofs::OutputLemmas::puts_both))]
fn put_place<W: Output>(writer: &mut W, asked: &EndsAsked, end: &EndAt)
    ensures { Puts (W.written writer.old) (W.written writer.new)
        (place_bytes asked.now end.now) }
{
    put_head(writer, OutRecordKind::PlaceEnd, 44);
    put_names(writer, asked, &end.place);
    put_counts(writer, numbers_of(end.end))
}

/// Writes whose an end is.
#[tactic(auto, using(crate::proofs::OutputLemmas::puts_both))]
fn put_names<W: Output>(writer: &mut W, asked: &EndsAsked, place: &Place)
    ensures { Puts (W.written writer.old) (W.written writer.new)
        (end_names asked.now place.now) }
{
    put_u64(writer, asked.run.0);
    put_u64(writer, asked.attempt.0);
    put_u32(writer, place.server.0);
    put_u32(writer, place.job.0)
}

/// Writes the numbers of an end.
#[tactic(auto, using(crate::proofs::OutputLemmas::puts_both))]
fn put_counts<W: Output>(writer: &mut W, numbers: EndNumbers)
    ensures { Puts (W.written writer.old) (W.written writer.new)
        (end_counts numbers) }
{
    put_u32(writer, numbers.end);
    put_u32(writer, numbers.checked);
    put_u32(writer, numbers.faults);
    put_u32(writer, numbers.block);
    put_u32(writer, numbers.reason)
}

/// Writes how an attempt ended in one word, and in sums.
#[tactic(auto, using(crate::proofs::OutputLemmas::puts_both))]
fn put_word<W: Output>(writer: &mut W, asked: &EndsAsked, end: AttemptEnd, sums: Sums)
    ensures { Puts (W.written writer.old) (W.written writer.new)
        (word_bytes asked.now end sums) }
{
    put_head(writer, OutRecordKind::AttemptEnd, 33);
    put_attempt(writer, asked);
    writer.put(&[word_number(end)]);
    put_sums(writer, sums)
}

/// Writes which attempt it is, of which run.
#[tactic(auto, using(crate::proofs::OutputLemmas::puts_both))]
fn put_attempt<W: Output>(writer: &mut W, asked: &EndsAsked)
    ensures { Puts (W.written writer.old) (W.written writer.new)
        (attempt_bytes asked.now) }
{
    put_u64(writer, asked.run.0);
    put_u64(writer, asked.attempt.0)
}

/// Writes sums.
#[tactic(auto, using(crate::proofs::OutputLemmas::puts_both))]
fn put_sums<W: Output>(writer: &mut W, sums: Sums)
    ensures { Puts (W.written writer.old) (W.written writer.new)
        (sums_bytes sums) }
{
    put_u64(writer, sums.checked);
    put_u64(writer, sums.faults)
}
