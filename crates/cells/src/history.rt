//! The history of a node, which is mostly made of what workers ask and tell.

ghost use Rattle.std.specs.Prelude.{◌≡◌, ◌≤◌, ◌<◌, ◌^◌, ◌∷◌, ◌++◌, [], length, slice_get, Some, IfSome, MatchOption, OnOk};
ghost use Rattle.std.specs.Option.{ForSome};
ghost use Rattle.cells.specs.declared.input.NodeInput.TheVariants as came;
ghost use Rattle.cells.specs.AtHub.{is_quiet};
ghost use Rattle.cells.specs.Histories.{lent_entry};
ghost use Rattle.cells.specs.Shorts.{entry_of, turn_entry};

use crate::answer::{Answer, Reply};
use crate::at_hub::is_quiet;
use crate::compact::CompactEntry;
use crate::entry::{HistoryEntry, Turn};
use crate::input::NodeInput;
use engine::Ticket;
use fc_base::{Fault, JobNo};
use messages::{Act, Frames};
use server_core::WriteEnd;
use std::alloc::{AllocError, Global};
use std::marker::Model;

/// An entry, as it is kept: a worker's turn, where it is short, or the place of another among those.
#[derive(Clone, Copy)]
pub(crate) enum Row {
    Short(CompactEntry),
    Other(usize),
}

/// Entries, the oldest first. What a worker asks or tells takes 32 bytes of it, and sends nothing; any other
/// entry takes 200 more, and its frames.
pub struct History {
    alloc: Global,
    rows: Vec<Row>,
    others: Vec<HistoryEntry>,
}

/// By hand, so that the crates above need no proof of it.
impl Drop for History {
    fn drop(self) {
        let History {
            alloc: _,
            rows: _,
            others: _,
        } = self;
    }
}

impl Model for History {
    ghost use Rattle.std.specs.Prelude.{◌-◌, min, map, length, vec_len, vec_capacity, All};
    ghost use Rattle.cells.specs.Histories.{Entries, entry_at, IsPlaced};

    ghost Value = { Entries };

    ghost view = { λ h. record {
      items = map (entry_at h.others.items) h.rows.items;
      room = min (vec_capacity h.rows - vec_len h.rows) (vec_capacity h.others - vec_len h.others);
    } };

    ghost invariant = { λ h. All (IsPlaced (length h.others.items)) h.rows.items };
}

/// An entry of a history that is lent.
#[derive(Drop)]
pub enum LentEntry<'a> {
    /// It is kept short, and was made anew.
    Made(HistoryEntry),
    /// It is kept so.
    Kept(&'a HistoryEntry),
}

impl<'a> LentEntry<'a> {
    /// The entry.
    pub fn as_entry(&self) -> &HistoryEntry
        ensures { result.now ≡ lent_entry self.now }
    {
        match self {
            LentEntry::Made(entry) => entry,
            LentEntry::Kept(entry) => entry,
        }
    }
}

impl History {
    /// Nothing has come yet.
    pub fn new(alloc: Global) -> History
        ensures { result.items ≡ [] }
    {
        History {
            alloc,
            rows: Vec::new(alloc),
            others: Vec::new(alloc),
        }
    }

    /// How many entries there are.
    pub fn len(&self) -> usize
        ensures { result ≡ length self.now.items }
    {
        self.rows.len()
    }

    /// The entry at this place, from 0 on, in constant time; `None` where there are no more.
    pub fn get(&self, at: usize) -> Option<LentEntry<'_>>
        ensures { MatchOption result (length self.now.items ≤ at)
            (λ entry. slice_get self.now.items at ≡ Some (lent_entry entry)) }
    {
        if at < self.rows.len() {
            Some(self.at(at))
        } else {
            None
        }
    }

    /// The entry at this place, from 0 on, in constant time.
    pub fn at(&self, at: usize) -> LentEntry<'_>
        requires { at < length self.now.items }
        ensures { slice_get self.now.items at ≡ Some (lent_entry result) }
    {
        match &self.rows.as_slice()[at] {
            Row::Short(short) => LentEntry::Made(short.entry(self.alloc)),
            Row::Other(place) => LentEntry::Kept(&self.others.as_slice()[*place]),
        }
    }

    /// Whether the entry at this place, from 0 on, stands, and neither took nor sent a frame, in constant time.
    pub fn is_quiet(&self, at: usize) -> bool
        requires { at < length self.now.items }
        ensures { ForSome (slice_get self.now.items at) (λ entry. result ≡ is_quiet entry) }
    {
        match &self.rows.as_slice()[at] {
            Row::Short(_) => true,
            Row::Other(place) => is_quiet(&self.others.as_slice()[*place]),
        }
    }

    /// Makes room for one more. For want of memory nothing changes, but that there may be more room.
    #[inline(always)]
    pub fn reserve(&mut self) -> Result<(), AllocError>
        ensures room { OnOk result (1 ≤ self.new.room) }
        ensures same { self.new.items ≡ self.old.items }
    {
        self.rows.reserve(1)?;
        self.others.reserve(1)
    }

    /// Adds an entry.
    #[inline(never)]
    pub fn push(&mut self, entry: HistoryEntry)
        requires { 1 ≤ self.old.room }
        ensures items { self.new.items ≡ self.old.items ++ entry ∷ [] }
        ensures few { length self.new.items < 2 ^ 64 }
    {
        let place = self.others.as_slice().len();
        self.others.push_reserved(entry);
        self.rows.push_reserved(Row::Other(place));
    }

    /// Adds what came from a seat, which was answered so and sent nothing.
    #[inline(never)]
    pub fn push_turn(&mut self, by: Turn, came: NodeInput, answer: &Result<Reply, Fault>)
        requires { 1 ≤ self.old.room }
        ensures items { self.new.items ≡ self.old.items ++ turn_entry by came answer.now ∷ [] }
        ensures few { length self.new.items < 2 ^ 64 }
    {
        self.push(HistoryEntry {
            by: Some(by),
            came,
            answer: *answer,
            sent: Frames::new(self.alloc),
        });
    }

    /// Adds that a worker asked for a write of a job, and was answered so.
    #[inline(always)]
    pub fn push_issue(&mut self, by: Turn, job: JobNo, answer: &Result<Reply, Fault>)
        requires { 1 ≤ self.old.room }
        ensures few { length self.new.items < 2 ^ 64 }
        ensures items { self.new.items
            ≡ self.old.items ++ turn_entry by (came.Issue job) answer.now ∷ [] }
    {
        match short_issue(by, job, answer) {
            Some(short) => self.rows.push_reserved(Row::Short(short)),
            None => self.push_turn(by, NodeInput::Issue(job), answer),
        }
    }

    /// Adds that a worker told how a write has ended, and was answered so.
    #[inline(always)]
    pub fn push_end(
        &mut self,
        by: Turn,
        ticket: &Ticket,
        end: WriteEnd,
        answer: &Result<Reply, Fault>,
    )
        requires { 1 ≤ self.old.room }
        ensures few { length self.new.items < 2 ^ 64 }
        ensures items { self.new.items
            ≡ self.old.items ++ turn_entry by (came.WriteDone ticket.now end) answer.now ∷ [] }
    {
        match short_end(by, ticket, end, answer) {
            Some(short) => self.rows.push_reserved(Row::Short(short)),
            None => self.push_turn(by, NodeInput::WriteDone(*ticket, end), answer),
        }
    }
}

/// The short entry of a request for a write; `None` where it isn't one.
#[inline(always)]
fn short_issue(by: Turn, job: JobNo, answer: &Result<Reply, Fault>) -> Option<CompactEntry>
    ensures { IfSome result (λ short. entry_of short ≡ turn_entry by (came.Issue job) answer.now) }
{
    match answer {
        Ok(
            Reply {
                answer: Answer::Issued(issue),
                act: Act::None,
            },
        ) => CompactEntry::of_issue(by, job, *issue),
        _ => None,
    }
}

/// The short entry of the end of a write; `None` where it isn't one.
#[inline(always)]
fn short_end(
    by: Turn,
    ticket: &Ticket,
    end: WriteEnd,
    answer: &Result<Reply, Fault>,
) -> Option<CompactEntry>
    ensures { IfSome result
        (λ short. entry_of short ≡ turn_entry by (came.WriteDone ticket.now end) answer.now) }
{
    match answer {
        Ok(
            Reply {
                answer: Answer::Plain,
                act: Act::None,
            },
        ) => CompactEntry::of_end(by, ticket, end),
        _ => None,
    }
}
