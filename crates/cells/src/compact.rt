//! What a worker asks its server, or tells it, and is answered, in few bytes.

ghost use Rattle.std.specs.Prelude.{◌≡◌, IfSome};
ghost use Rattle.cells.specs.declared.answer.Answer.TheVariants.{Plain, Issued};
ghost use Rattle.cells.specs.declared.input.NodeInput.TheVariants as came;
ghost use Rattle.cells.specs.Shorts.{entry_of, turn_entry, reply_of, turn_of, ticket_of, came_by, answer_by};

use crate::answer::{Answer, Reply};
use crate::entry::{HistoryEntry, Turn};
use crate::input::NodeInput;
use engine::{Issue, Ticket};
use fc_base::{JobNo, Key, RunNo, Seq, ServerNo};
use messages::{Act, Frames};
use server_core::WriteEnd;
use std::alloc::Global;

/// What a worker asked or told, and was answered.
#[derive(Clone, Copy, PartialEq, Eq)]
pub(crate) enum ShortEvent {
    /// It asked for a write, and one was issued.
    Write,
    /// It asked for a write, and none was issued: the same as of [`Issue`].
    Full,
    Held,
    Overlap,
    Finished,
    Stopped,
    /// It told that a write is done.
    Done,
    /// It told that a write has failed.
    Failed,
}

/// An entry of a worker's turn, whose numbers are small. Where no write is told of, all of them but the
/// job's are 0.
#[derive(Clone, Copy, PartialEq, Eq)]
pub(crate) struct CompactEntry {
    deed: ShortEvent,
    seat: u8,
    server: u8,
    job: u8,
    number: u32,
    boot: u32,
    run: u32,
    seq: u32,
    block: u32,
}

impl CompactEntry {
    /// The entry of a request for a write of a job; `None` where a number of it is too large.
    #[inline(always)]
    pub(crate) fn of_issue(by: Turn, job: JobNo, issue: Issue) -> Option<CompactEntry>
        ensures { IfSome result
            (λ short. entry_of short ≡ turn_entry by (came.Issue job) (reply_of (Issued issue))) }
    {
        match issue {
            Issue::Write(ticket) => {
                if ticket.key.job == job {
                    CompactEntry::new(ShortEvent::Write, by, &ticket)
                } else {
                    None
                }
            }
            Issue::Full => CompactEntry::new(ShortEvent::Full, by, &no_write(job)),
            Issue::Held => CompactEntry::new(ShortEvent::Held, by, &no_write(job)),
            Issue::Overlap => CompactEntry::new(ShortEvent::Overlap, by, &no_write(job)),
            Issue::Finished => CompactEntry::new(ShortEvent::Finished, by, &no_write(job)),
            Issue::Stopped => CompactEntry::new(ShortEvent::Stopped, by, &no_write(job)),
        }
    }

    /// The entry of the end of a write; `None` where a number of it is too large.
    #[inline(always)]
    pub(crate) fn of_end(by: Turn, ticket: &Ticket, end: WriteEnd) -> Option<CompactEntry>
        ensures { IfSome result
            (λ short. entry_of short
            ≡ turn_entry by (came.WriteDone ticket.now end) (reply_of Plain)) }
    {
        match end {
            WriteEnd::Done => CompactEntry::new(ShortEvent::Done, by, ticket),
            WriteEnd::Failed => CompactEntry::new(ShortEvent::Failed, by, ticket),
        }
    }

    /// These, where they fit.
    #[inline(always)]
    fn new(deed: ShortEvent, by: Turn, ticket: &Ticket) -> Option<CompactEntry>
        ensures deed { IfSome result (λ short. short.deed ≡ deed) }
        ensures turn { IfSome result (λ short. turn_of short ≡ by) }
        ensures ticket { IfSome result (λ short. ticket_of short ≡ ticket.now) }
    {
        let Key { run, server, job } = ticket.key;
        Some(CompactEntry {
            deed,
            seat: u8::try_from(by.seat).ok()?,
            server: u8::try_from(server.0).ok()?,
            job: u8::try_from(job.0).ok()?,
            number: u32::try_from(by.number).ok()?,
            boot: u32::try_from(ticket.boot).ok()?,
            run: u32::try_from(run.0).ok()?,
            seq: u32::try_from(ticket.seq.0).ok()?,
            block: ticket.block,
        })
    }

    /// The entry.
    pub(crate) fn entry(&self, alloc: Global) -> HistoryEntry
        ensures { result ≡ entry_of self.now }
    {
        HistoryEntry {
            by: Some(Turn {
                seat: u32::from(self.seat),
                number: u64::from(self.number),
            }),
            came: self.came(),
            answer: Ok(Reply {
                answer: self.answer(),
                act: Act::None,
            }),
            sent: Frames::new(alloc),
        }
    }

    fn came(&self) -> NodeInput
        ensures { result ≡ came_by self.now.deed (ticket_of self.now) }
    {
        match self.deed {
            ShortEvent::Done => NodeInput::WriteDone(self.ticket(), WriteEnd::Done),
            ShortEvent::Failed => NodeInput::WriteDone(self.ticket(), WriteEnd::Failed),
            _ => NodeInput::Issue(JobNo(u32::from(self.job))),
        }
    }

    fn answer(&self) -> Answer
        ensures { result ≡ answer_by self.now.deed (ticket_of self.now) }
    {
        match self.deed {
            ShortEvent::Write => Answer::Issued(Issue::Write(self.ticket())),
            ShortEvent::Full => Answer::Issued(Issue::Full),
            ShortEvent::Held => Answer::Issued(Issue::Held),
            ShortEvent::Overlap => Answer::Issued(Issue::Overlap),
            ShortEvent::Finished => Answer::Issued(Issue::Finished),
            ShortEvent::Stopped => Answer::Issued(Issue::Stopped),
            ShortEvent::Done | ShortEvent::Failed => Answer::Plain,
        }
    }

    fn ticket(&self) -> Ticket
        ensures { result ≡ ticket_of self.now }
    {
        Ticket {
            boot: u64::from(self.boot),
            key: Key {
                run: RunNo(u64::from(self.run)),
                server: ServerNo(u32::from(self.server)),
                job: JobNo(u32::from(self.job)),
            },
            seq: Seq(u64::from(self.seq)),
            block: self.block,
        }
    }
}

/// What names a job where there is no write.
fn no_write(job: JobNo) -> Ticket
    ensures { result.key.job ≡ job }
{
    Ticket {
        boot: 0,
        key: Key {
            run: RunNo(0),
            server: ServerNo(0),
            job,
        },
        seq: Seq(0),
        block: 0,
    }
}
