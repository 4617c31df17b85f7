//! What is told of what happens in a world.

ghost use Rattle.std.specs.Prelude.{◌≡◌, IfOk};
ghost use Rattle.net_world.specs.Telling.{plainly_told};

use client_core::Answer;
use engine::Issue;
use fc_base::{Attempt, CheckReport, RunNo};
use messages::Act;
use std::alloc::{AllocError, Global};
use std::marker::Model;

/// What is answered.
#[derive(Drop)]
pub enum WorldAnswer {
    /// Nothing more.
    Plain,
    /// The number of the run that has begun.
    Run(RunNo),
    /// The number of the attempt to verify.
    Attempt(Attempt),
    /// What a worker is told that asks for a write.
    Issued(Issue),
    /// The report of a check.
    Checked(BoxedReport),
}

impl WorldAnswer {
    ghost use Rattle.net_world.specs.ClientAnswers.{world_answer};
    ghost use Rattle.net_world.specs.World.{answer_of_issue};

    /// What a client answers, as what a world does.
    pub(crate) fn of_client(answer: Answer) -> WorldAnswer
        ensures { result ≡ world_answer answer }
    {
        match answer {
            Answer::Plain => WorldAnswer::Plain,
            Answer::Run(run) => WorldAnswer::Run(run),
            Answer::Attempt(attempt) => WorldAnswer::Attempt(attempt),
        }
    }

    /// What a server answers of writes, as what a world does.
    #[inline(always)]
    pub(crate) fn of_issue(issue: Option<Issue>) -> WorldAnswer
        ensures { result ≡ answer_of_issue issue }
    {
        match issue {
            Some(issue) => WorldAnswer::Issued(issue),
            None => WorldAnswer::Plain,
        }
    }
}

/// The report of a check, in memory of its own, since it is much larger than any other answer.
#[derive(Drop)]
pub struct BoxedReport {
    report: Box<CheckReport>,
}

impl Model for BoxedReport {
    ghost use Rattle.fc_base.specs.declared.report.ReportParts.{ReportParts};

    ghost Value = { ReportParts };

    ghost view = { λ b. b.report.value };
}

impl BoxedReport {
    /// This report.
    pub(crate) fn new(alloc: Global, report: CheckReport) -> Result<BoxedReport, AllocError>
        ensures { IfOk result (λ boxed. boxed ≡ report) }
    {
        match Box::new(alloc, report) {
            Ok(report) => Ok(BoxedReport { report }),
            Err(_) => Err(AllocError),
        }
    }

    /// The report.
    pub fn as_report(&self) -> &CheckReport
        ensures { result.now ≡ self.now }
    {
        &self.report
    }
}

/// What is told of what has happened: what is answered, how many frames were sent, which are numbered
/// from `first` on, and what a server asks of its caller.
#[derive(Drop)]
pub struct Told {
    pub answer: WorldAnswer,
    pub first: u64,
    pub sent: u64,
    pub act: Act,
}

impl Told {
    /// It is told that it has happened, behind so many frames.
    pub(crate) fn plain(first: usize) -> Told
        ensures { result ≡ plainly_told first }
    {
        Told {
            answer: WorldAnswer::Plain,
            first: first as u64,
            sent: 0,
            act: Act::None,
        }
    }

    /// It is told with this answer in place of its own.
    pub(crate) fn with_answer(self, answer: WorldAnswer) -> Told
        ensures { result ≡ record self { answer = answer } }
    {
        Told {
            answer,
            first: self.first,
            sent: self.sent,
            act: self.act,
        }
    }
}
