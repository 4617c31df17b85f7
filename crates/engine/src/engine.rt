//! The engine of a job.

ghost use Rattle.std.specs.Prelude.{◌≡◌, [], length, is_ok, false, true, if◌then◌else◌, IsTrue, IfOk, OnOk};
ghost use Rattle.engine.specs.History.{done, fail, open_writes};
ghost use Rattle.fc_base.specs.Keys.{is_key};
ghost use Rattle.engine.specs.Running.{Origin, running_of, StandsFor, EachHistory, Adds, after_done, after_fail};
ghost use Rattle.engine.specs.Answers.{answer_of, answer_to, after_answer, AddsAnswer, names_one_of, ticket_answer, open_ticket, has_ended, ended_of};
ghost use Rattle.engine.specs.Taken.{state_now, state_after, CountsTheDone};

use crate::issue::{Issue, Ticket};
use crate::room::Room;
use crate::window::Window;
use crate::window_law::{counting_law, marks_law};
use crate::writes::{OpenWrite, close, has_block, has_write, write_of};
use fc_base::{Fault, JobRecord, Key, Seq};
use std::alloc::{AllocError, Global};
use std::marker::Model;
use verify_state::VerifyState;
use write_order::Order;

/// Issues the writes of one job of a run, and keeps account of them until they complete.
///
/// A write is issued where the job isn't stopped and none of its writes has failed, where the depth
/// (fio's manual, "I/O depth") and the window of the job leave room, and where no write in flight
/// goes to its block. Its state can be taken at any moment (manual, "Verification and triggers").
///
/// Only making it takes memory. `issue`, `done` and `failed` take as many steps as there are open
/// writes, and taking a state constant time.
pub struct Engine {
    boot: u64,
    key: Key,
    rec: JobRecord,
    window: Window,
    order: Order,
    /// The open writes, with room for as many as may be in flight. Until one has failed, these are
    /// all that are in flight.
    open: Vec<OpenWrite>,
    /// Whether `stop` was called.
    stopped: bool,
    /// Whether a write has failed.
    failed: bool,
}

/// By hand, so that the crates above need no proof of it.
impl Drop for Engine {
    fn drop(self) {
        let Engine {
            boot: _,
            key: _,
            rec: _,
            window: _,
            order: _,
            open: _,
            stopped: _,
            failed: _,
        } = self;
    }
}

impl Model for Engine {
    ghost use Rattle.fc_base.specs.Keys.{is_key};
    ghost use Rattle.engine.specs.Running.{Running};

    ghost Value = { Running };

    ghost use Rattle.engine.specs.Inside.{running_in, IsConsistent};

    ghost view = { running_in };

    ghost invariant = { IsConsistent };
}

impl Engine {
    /// The engine of a job before its first write, with room for as many open writes as may be in
    /// flight. `boot` is that of the server; the key has to be one that a state can have.
    pub fn new(alloc: Global, boot: u64, key: Key, rec: &JobRecord) -> Result<Engine, AllocError>
        requires { IsTrue (is_key key) }
        ensures value { let origin : Origin = record { boot = boot; key = key; job = rec.now } in
            IfOk result (λ made. made ≡ running_of origin false []) }
        ensures history { IfOk result (λ made. StandsFor made []) }
    {
        let depth = rec.depth();
        Ok(Engine {
            boot,
            key,
            rec: *rec,
            window: Window::new(alloc, u64::from(depth), u64::from(rec.window()))?,
            order: Order::new(alloc, rec)?,
            open: Vec::with_capacity(alloc, depth as usize)?,
            stopped: false,
            failed: false,
        })
    }

    /// Issues the next write, or says why none is issued, and then nothing changes.
    pub fn issue(&mut self) -> Issue
        ensures answer { result ≡ answer_of self.old }
        ensures left { self.new ≡ after_answer self.old result }
        ensures history { EachHistory self.old
            (λ h. result ≡ answer_to self.old.origin self.old.stopped h) }
        ensures added { AddsAnswer self.old self.new result }
    {
        match self.next() {
            Issue::Write(ticket) => {
                let seq = self.window.issue();
                self.order.advance();
                let block = ticket.block;
                self.open.push_reserved(OpenWrite { seq, block });
                Issue::Write(ticket)
            }
            answer => answer,
        }
    }

    /// Notes that a write is done. A ticket of another boot is refused as [`Fault::OldBoot`], and
    /// else one whose key, number and block name no open write as [`Fault::NotInFlight`]; then
    /// nothing changes.
    pub fn done(&mut self, ticket: Ticket) -> Result<(), Fault>
        ensures answer { result ≡ ticket_answer self.old.origin self.old.kept.open_writes ticket }
        ensures left { self.new
            ≡ (if is_ok result then after_done self.old ticket.seq else self.old) }
        ensures history { EachHistory self.old
            (λ h. result ≡ ticket_answer self.old.origin (open_writes h) ticket) }
        ensures added { OnOk result (Adds self.old self.new (done ticket.seq)) }
    {
        self.check(&ticket)?;
        self.window.complete(ticket.seq)?;
        close(&mut self.open, ticket.seq);
        Ok(())
    }

    /// Notes that a write has failed: it stays in flight, and no write is issued after it. Tickets
    /// are refused as by [`done`](Engine::done).
    pub fn failed(&mut self, ticket: Ticket) -> Result<(), Fault>
        ensures answer { result ≡ ticket_answer self.old.origin self.old.kept.open_writes ticket }
        ensures left { self.new
            ≡ (if is_ok result then after_fail self.old ticket.seq else self.old) }
        ensures history { EachHistory self.old
            (λ h. result ≡ ticket_answer self.old.origin (open_writes h) ticket) }
        ensures added { OnOk result (Adds self.old self.new (fail ticket.seq)) }
    {
        self.check(&ticket)?;
        self.window.fail(ticket.seq)?;
        close(&mut self.open, ticket.seq);
        self.failed = true;
        Ok(())
    }

    /// Stops the job: no write is issued any more. Writes in flight go on.
    pub fn stop(&mut self)
        ensures left { self.new ≡ record self.old { stopped = true } }
        ensures history { EachHistory self.old (StandsFor self.new) }
    {
        self.stopped = true;
    }

    /// The state of the job as of now: how many writes were issued, the place of the generator
    /// after them, and which writes have completed. It counts exactly those. Taking it needs no
    /// memory.
    pub fn take(&self) -> VerifyState
        ensures value { result ≡ state_now self.now }
        ensures history { EachHistory self.now (λ h. result ≡ state_after self.now.origin h) }
        ensures counted { EachHistory self.now (CountsTheDone result) }
    {
        counting_law();
        marks_law();
        let issued = self.order.issued();
        let marks = self.window.marks();
        match VerifyState::make_marked(self.key, &self.rec, issued, self.order.place(), marks) {
            Ok(state) => state,
            Err(_) => unreachable!(),
        }
    }

    /// The ticket of the write of this number, where it is open: issued, and neither done nor failed.
    pub fn open_write(&self, seq: Seq) -> Option<Ticket>
        ensures value { result ≡ open_ticket self.now.origin self.now.kept.open_writes seq }
        ensures history { EachHistory self.now
            (λ h. result ≡ open_ticket self.now.origin (open_writes h) seq) }
    {
        match write_of(&self.open, seq) {
            Some(write) => Some(Ticket {
                boot: self.boot,
                key: self.key,
                seq: write.seq,
                block: write.block,
            }),
            None => None,
        }
    }

    /// How many writes are open: issued, and neither done nor failed.
    pub fn open_writes(&self) -> u32
        ensures value { result ≡ length self.now.kept.open_writes }
        ensures history { EachHistory self.now (λ h. result ≡ length (open_writes h)) }
    {
        self.open.len() as u32
    }

    /// Whether no write is open, and none will be issued any more.
    pub fn ended(&self) -> bool
        ensures value { result ≡ ended_of self.now }
        ensures history { EachHistory self.now
            (λ h. result ≡ has_ended self.now.origin self.now.stopped h) }
    {
        self.open.is_empty() && !matches!(self.next(), Issue::Write(_))
    }

    /// What `issue` answers now.
    #[inline(always)]
    fn next(&self) -> Issue
        ensures { result ≡ answer_of self.now }
    {
        if self.stopped || self.failed {
            return Issue::Stopped;
        }
        let Some(block) = self.order.peek() else {
            return Issue::Finished;
        };
        match self.window.room() {
            Room::Depth => Issue::Full,
            Room::Held => Issue::Held,
            Room::Open if has_block(&self.open, block) => Issue::Overlap,
            Room::Open => Issue::Write(Ticket {
                boot: self.boot,
                key: self.key,
                seq: Seq(self.window.issued()),
                block,
            }),
        }
    }

    /// Refuses a ticket of another boot, or one that names no open write.
    fn check(&self, ticket: &Ticket) -> Result<(), Fault>
        ensures { result ≡ ticket_answer self.now.origin self.now.kept.open_writes ticket.now }
    {
        if ticket.boot != self.boot {
            Err(Fault::OldBoot)
        } else if self.names_open_write(ticket) {
            Ok(())
        } else {
            Err(Fault::NotInFlight)
        }
    }

    fn names_open_write(&self, ticket: &Ticket) -> bool
        ensures { result ≡ names_one_of self.now.origin self.now.kept.open_writes ticket.now }
    {
        ticket.key == self.key && has_write(&self.open, ticket.seq, ticket.block)
    }
}
