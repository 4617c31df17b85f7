//! The checks of a server, whose blocks come as they are wanted.

ghost use Rattle.std.specs.Prelude.{◌≡◌, ◌<◌, List, IfSome, IsTrue, set};
ghost use Rattle.filters.specs.Written.{Puts};
ghost use Rattle.fc_base.specs.declared.limits.TheConstants.{MAX_JOBS as JOBS};
ghost use Rattle.fc_base.specs.Report.{is_report};
ghost use Rattle.server_core.specs.declared.input.Input.TheVariants.{CheckDone};
ghost use Rattle.server_core.specs.History.{Opening};
ghost use Rattle.server_core.specs.Hearing.{FrameEntry, packets_heard};
ghost use Rattle.server_core.specs.Answers.{shown_entries};
ghost use Rattle.server_core.specs.Check.{progress};
ghost use Rattle.server_core.specs.FrameEnds.{StandsFor, steps};
ghost use Rattle.filters.specs.Kept.{note_kept};
ghost use Rattle.filters.specs.NodeSteps.{InputEnds};
ghost use Rattle.filters.specs.ServerAt.{answer_to};
ghost use Rattle.filters.specs.ServerTurns.{Turns, ready_by, want_bytes};
ghost use Rattle.filters.specs.ServerChecks.{Feeds, GivesUp, is_open_attempt};
ghost use Rattle.filters.specs.CheckRuns.{GoesSo, IsHere, IsNewCheck, TakesOut, TellsSo, kept_in, is_same_check};
ghost use Rattle.filters.specs.Steps.{AnswersBy};

use super::ServerFilter;
use super::writes::answered;
use crate::checking::{CheckTurn, Checking};
use crate::kinds::OutRecordKind;
use crate::names::{BLOCK_NAME, BlockName, block_name};
use crate::node_step::NodeStep;
use crate::output::Output;
use crate::writing::{put_head, put_u32, put_u64};
use fc_base::{Attempt, CheckReport, Fault, JobNo, Key, MAX_BLOCKS, MAX_JOBS};
use server_core::{Input, Progress};
use verify_state::VerifyState;

impl ServerFilter {
    /// Begins the check of a job, where it may be made and isn't under way. Where memory is wanting it begins
    /// behind a later record.
    pub(super) fn begin_check<W: Output>(&mut self, job: JobNo, writer: &mut W)
        requires { job < JOBS }
        ensures { AnswersBy Turns (IsHere self.old) (IsHere self.new)
            (W.written writer.old) (W.written writer.new) }
    {
        let Some(checking) = self.new_check(job) else {
            return;
        };
        let boot = checking.boot;
        let attempt = checking.attempt;
        let went = checking.seek();
        let _answer = self.go(boot, attempt, job, went, writer);
    }

    /// The check of a job that may be made and isn't under way.
    fn new_check(&self, job: JobNo) -> Option<Checking>
        ensures { IfSome result (IsNewCheck self.now job) }
    {
        let state = self.ready(job)?;
        let status = self.server.status();
        if self.is_under_way(status.boot, status.attempt, job) {
            return None;
        }
        let found = self.server.check_job(job)?;
        let key = Key {
            run: status.last_run,
            server: self.server.me(),
            job,
        };
        let started = Checking::start(
            self.alloc,
            status.boot,
            status.attempt,
            key,
            &found.rec,
            state.as_ref(),
            found.fatal,
        );
        match started {
            Ok(checking) => Some(checking),
            Err(_) => None,
        }
    }

    /// The state that the check of a job is made with, where it may be made: none for a full pass.
    fn ready(&self, job: JobNo) -> Option<Option<VerifyState>>
        ensures { (opening : Opening) (past : List FrameEntry) →
            StandsFor note_kept self.now.server opening past →
            result ≡ ready_by (progress opening (shown_entries (packets_heard opening past)) job) }
    {
        match self.server.check_progress(job) {
            Some(Progress::Full) => Some(None),
            Some(Progress::With(state)) => Some(Some(*state)),
            _ => None,
        }
    }

    /// Whether blocks of this check are wanted.
    fn is_under_way(&self, boot: u64, attempt: Attempt, job: JobNo) -> bool
        ensures { result ≡ is_same_check boot attempt (kept_in self.now.checks.items job) }
    {
        match self.checks.get(job.0 as usize) {
            Some(Some(now)) => now.attempt == attempt && now.boot == boot,
            _ => false,
        }
    }

    /// Whether an attempt is that of the open check: a later one ends the checks of those before.
    fn is_open(&self, attempt: Attempt) -> bool
        ensures { (opening : Opening) (past : List FrameEntry) →
            StandsFor note_kept self.now.server opening past →
            result ≡ is_open_attempt opening past attempt }
    {
        self.server.status().attempt == attempt
    }

    /// Wants more blocks of a check, or tells the server its report.
    fn go<W: Output>(
        &mut self,
        boot: u64,
        attempt: Attempt,
        job: JobNo,
        went: CheckTurn,
        writer: &mut W,
    ) -> Result<(), Fault>
        requires { job < JOBS }
        ensures { GoesSo self.old boot attempt job went result self.new
            (W.written writer.old) (W.written writer.new) }
    {
        match went {
            CheckTurn::On(checking) => {
                want(writer, &checking);
                self.put(job, Some(checking));
                Ok(())
            }
            CheckTurn::Ended(report) => self.tell(boot, attempt, job, report, writer),
        }
    }

    /// Keeps the check of a job that is under way, or that none is.
    fn put(&mut self, job: JobNo, check: Option<Checking>)
        requires { job < JOBS }
        ensures server { self.new.server ≡ self.old.server }
        ensures checks { self.new.checks.items ≡ set self.old.checks.items job check }
    {
        self.checks[job.0 as usize] = check;
    }

    /// Tells the server the report of a check, which is no longer under way.
    fn tell<W: Output>(
        &mut self,
        boot: u64,
        attempt: Attempt,
        job: JobNo,
        report: CheckReport,
        writer: &mut W,
    ) -> Result<(), Fault>
        requires { job < JOBS }
        ensures { TellsSo self.old boot attempt job report result self.new
            (W.written writer.old) (W.written writer.new) }
    {
        self.put(job, None);
        match self.report(boot, attempt, job, report) {
            Ok(told) => {
                self.put_answered(&told, writer);
                Ok(())
            }
            Err(fault) => Err(fault),
        }
    }

    /// Tells the server the report of a check.
    fn report(
        &mut self,
        boot: u64,
        attempt: Attempt,
        job: JobNo,
        report: CheckReport,
    ) -> Result<NodeStep, Fault>
        ensures ends { (opening : Opening) (past : List FrameEntry) →
            StandsFor note_kept self.old.server opening past →
            InputEnds (steps note_kept opening) (answer_to opening past) past
            (CheckDone boot attempt job report) self.old.server self.new.server result }
        ensures checks { self.new.checks ≡ self.old.checks }
        ensures fits { IsTrue (is_report report) }
    {
        let _fits = report.parts();
        let told = Input::CheckDone {
            boot,
            attempt,
            job,
            report,
        };
        match self.server.step(told) {
            Ok(outs) => Ok(answered(false, outs)),
            Err(fault) => Err(fault),
        }
    }

    /// Takes out the check that is named: of this job and attempt, where it wants this block next.
    fn take_out(&mut self, name: BlockName) -> Option<Checking>
        ensures server { self.new.server ≡ self.old.server }
        ensures checks { TakesOut self.old.checks.items name self.new.checks.items result }
    {
        let fits = match self.checks.get(name.job.0 as usize) {
            Some(Some(now)) => now.attempt == name.attempt && now.next == name.block,
            _ => false,
        };
        if fits {
            self.checks[name.job.0 as usize].take()
        } else {
            None
        }
    }

    /// Takes blocks that a check wants: some, from the first one on.
    pub(super) fn blocks<W: Output>(&mut self, body: &[u8], writer: &mut W) -> Result<(), Fault>
        ensures { AnswersBy (λ opening at now answer. Feeds opening at body.now result now answer)
            (IsHere self.old) (IsHere self.new)
            (W.written writer.old) (W.written writer.new) }
    {
        if body.len() < BLOCK_NAME {
            return Err(Fault::BadNotice);
        }
        let (front, bytes) = body.split_at(BLOCK_NAME);
        let name = block_name(front);
        let attempt = name.attempt;
        let job = name.job;
        if !self.is_open(attempt) {
            return Err(Fault::NotInFlight);
        }
        let Some(checking) = self.take_out(name) else {
            return Err(Fault::NotInFlight);
        };
        let boot = checking.boot;
        match checking.some_of(bytes.len()) {
            Some(given) => {
                let went = checking.feed_all(given, bytes);
                self.go(boot, attempt, job, went, writer)
            }
            None => {
                self.put(job, Some(checking));
                Err(Fault::BadNotice)
            }
        }
    }

    /// Takes that the first block which a check wants couldn't be read.
    pub(super) fn unread<W: Output>(&mut self, body: &[u8], writer: &mut W) -> Result<(), Fault>
        ensures { AnswersBy (λ opening at now answer. GivesUp opening at body.now result now answer)
            (IsHere self.old) (IsHere self.new)
            (W.written writer.old) (W.written writer.new) }
    {
        if body.len() != BLOCK_NAME {
            return Err(Fault::BadNotice);
        }
        let name = block_name(body);
        let attempt = name.attempt;
        let job = name.job;
        if name.block >= MAX_BLOCKS {
            return Err(Fault::NotInFlight);
        }
        if !self.is_open(attempt) {
            return Err(Fault::NotInFlight);
        }
        let Some(checking) = self.take_out(name) else {
            return Err(Fault::NotInFlight);
        };
        let boot = checking.boot;
        let report = checking.give_up();
        self.tell(boot, attempt, job, report, writer)
    }
}

/// Writes that blocks are wanted.
#[tactic(auto, using(crate::proofs::OutputLemmas::puts_both))]
fn want<W: Output>(writer: &mut W, checking: &Checking)
    ensures { Puts (W.written writer.old) (W.written writer.new)
        (want_bytes checking.now.attempt checking.now.job checking.now.next checking.now.count
        checking.now.size) }
{
    put_head(writer, OutRecordKind::Want, 24);
    put_u64(writer, checking.attempt.0);
    put_u32(writer, checking.job.0);
    put_u32(writer, checking.next);
    put_u32(writer, checking.count);
    put_u32(writer, checking.size)
}
