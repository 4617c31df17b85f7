//! A server over its durable note.

ghost use Rattle.std.specs.Prelude.{◌≡◌, ◌<◌, List};
ghost use Rattle.fc_base.specs.declared.limits.TheConstants.{MAX_SERVERS};
ghost use Rattle.server_core.specs.declared.input.Input.TheVariants.{Deliver, Issue as ToIssue, WriteDone as ToEnd, CheckDone as ToReport};

mod look;
mod node_core;

use crate::input::{Input, WriteEnd};
use crate::law::{frames_are_short, packets_are_in_range};
use crate::outs::Outs;
use crate::packet_server::PacketServer;
use disk_model::Notes;
use engine::{Issue, Ticket};
use fc_base::{Attempt, CheckReport, Fault, JobNo, ServerNo};
use messages::{Assembly, Frame};
use node::Hearer;
use std::alloc::Global;

/// A server.
#[derive(Drop)]
pub struct Server<N> {
    alloc: Global,
    hearer: Hearer<PacketServer<N>>,
}

impl<N: Notes> Server<N> {
    ghost use Rattle.server_core.specs.History.{Opening};
    ghost use Rattle.server_core.specs.Note.{Says};
    ghost use Rattle.server_core.specs.Words.{words_noted};
    ghost use Rattle.server_core.specs.Hearing.{FrameEntry, packets_heard};
    ghost use Rattle.server_core.specs.FrameAnswers.{sense, would_save};
    ghost use Rattle.node.specs.Steps.{Ends};
    ghost use Rattle.server_core.specs.FrameEnds.{StandsFor, steps, Opens, note_in};
    ghost use Rattle.server_core.specs.Memory.{TakesNone, WritesTakeNone};
    ghost use Rattle.server_core.specs.Handles.{outs_of_issue, outs_of_end};
    ghost use Rattle.messages.specs.Senses.{HearsInRange};
    ghost use Rattle.server_core.specs.Ranges.{IsInRange};

    /// Opens the server with this number over its note, where it saves the next boot before it answers;
    /// a blank note has none yet. Where it isn't opened, the notes come back.
    ///
    /// `LoadFault`, `BadNote`, `NumbersSpent` after the last boot, `NoMemory`: the notes hold what they
    /// held. `SaveFault`: they hold that, or the next boot.
    pub fn restart(alloc: Global, me: ServerNo, notes: N) -> Result<Server<N>, (N, Fault)>
        requires { me < MAX_SERVERS }
        ensures { Opens N.note me notes result }
    {
        let core = PacketServer::restart(alloc, me, notes)?;
        let pieces = Assembly::new(alloc);
        Ok(Server {
            alloc,
            hearer: Hearer { core, pieces },
        })
    }

    /// The notes of a server that is taken off.
    pub fn off(self) -> N
        ensures note { N.note result ≡ note_in N.note self }
        ensures says { (opening : Opening) (past : List FrameEntry) →
            StandsFor N.note self opening past →
            Says (N.note result).bytes (words_noted opening (packets_heard opening past)) }
    {
        let Server { alloc: _, hearer } = self;
        let Hearer { core, pieces: _ } = hearer;
        let PacketServer {
            durable,
            machine: _,
        } = core;
        durable.into_notes()
    }

    /// The note that it keeps, as it is durable. Behind a failed save it is what that left.
    pub fn notes(&self) -> &N
        ensures note { N.note result.now ≡ note_in N.note self.now }
        ensures says { (opening : Opening) (past : List FrameEntry) →
            StandsFor N.note self.now opening past →
            Says (N.note result.now).bytes (words_noted opening (packets_heard opening past)) }
    {
        self.hearer.core.durable.notes()
    }

    /// Whether the delivery of this frame would make a save: it is a Start that is due to record a run. No
    /// piece is one.
    pub fn would_save(&self, frame: &Frame) -> bool
        ensures { (opening : Opening) (past : List FrameEntry) →
            StandsFor N.note self.now opening past →
            result ≡ would_save opening past frame.now }
    {
        match frame {
            Frame::Whole(packet) => self.hearer.core.would_save(packet),
            Frame::Piece(piece) => {
                piece.keeps_its_ranges();
                false
            }
        }
    }

    /// Takes what comes. A Start that is due is recorded before it is answered.
    ///
    /// `Down`: a save has failed, and nothing changes until the server is restarted. `FrameBadField`: a
    /// piece completes a body that isn't the packet of its tag, which is dropped. `NoMemory`: nothing
    /// changes. `SaveFault`: the device failed, and the server is down. Any other fault is a refusal,
    /// which changes nothing.
    // Inlined with the way of writes alone, so that their caller makes no room for packets and frames.
    #[inline(always)]
    pub fn step(&mut self, input: Input<Frame>) -> Result<Outs, Fault>
        ensures ends { (opening : Opening) (past : List FrameEntry) →
            StandsFor N.note self.old opening past →
            Ends (steps N.note opening) past input self.old self.new result }
        ensures ranges { (opening : Opening) (past : List FrameEntry) →
            StandsFor N.note self.old opening past →
            HearsInRange IsInRange (sense opening past input) result }
        ensures memory { WritesTakeNone input result }
    {
        match input {
            Input::Issue(job) => Outs::issued(self.alloc, self.issue(job)),
            Input::WriteDone(ticket, end) => Outs::ended(self.alloc, self.end_write(ticket, end)),
            Input::Deliver(frame) => self.deliver(frame),
            Input::CheckDone {
                boot,
                attempt,
                job,
                report,
            } => self.end_check(boot, attempt, job, report),
        }
    }

    /// Takes a request for a write of a job, as `step` does.
    #[inline(always)]
    pub fn issue(&mut self, job: JobNo) -> Result<Issue, Fault>
        ensures ends { (opening : Opening) (past : List FrameEntry) →
            StandsFor N.note self.old opening past →
            Ends (steps N.note opening) past (ToIssue job) self.old self.new
            (outs_of_issue result) }
        ensures ranges { (opening : Opening) (past : List FrameEntry) →
            StandsFor N.note self.old opening past →
            HearsInRange IsInRange (sense opening past (ToIssue job)) (outs_of_issue result) }
        ensures memory { TakesNone result }
    {
        if self.hearer.core.durable.is_down() {
            return Err(Fault::Down);
        }
        frames_are_short();
        packets_are_in_range();
        Ok(self.hearer.core.machine.issue(job))
    }

    /// Takes the end of a write, as `step` does.
    #[inline(always)]
    pub fn end_write(&mut self, ticket: Ticket, end: WriteEnd) -> Result<(), Fault>
        ensures ends { (opening : Opening) (past : List FrameEntry) →
            StandsFor N.note self.old opening past →
            Ends (steps N.note opening) past (ToEnd ticket end) self.old self.new
            (outs_of_end result) }
        ensures ranges { (opening : Opening) (past : List FrameEntry) →
            StandsFor N.note self.old opening past →
            HearsInRange IsInRange (sense opening past (ToEnd ticket end)) (outs_of_end result) }
        ensures memory { TakesNone result }
    {
        if self.hearer.core.durable.is_down() {
            return Err(Fault::Down);
        }
        frames_are_short();
        packets_are_in_range();
        self.hearer.core.machine.end_write(ticket, end)
    }

    /// Takes what a check found.
    #[inline(never)]
    fn end_check(
        &mut self,
        boot: u64,
        attempt: Attempt,
        job: JobNo,
        report: CheckReport,
    ) -> Result<Outs, Fault>
        ensures ends { (opening : Opening) (past : List FrameEntry) →
            StandsFor N.note self.old opening past →
            Ends (steps N.note opening) past (ToReport boot attempt job report)
            self.old self.new result }
        ensures ranges { (opening : Opening) (past : List FrameEntry) →
            StandsFor N.note self.old opening past →
            HearsInRange IsInRange (sense opening past (ToReport boot attempt job report)) result }
    {
        let _in_range = report.parts();
        self.hearer.core.step(Input::CheckDone {
            boot,
            attempt,
            job,
            report,
        })
    }

    /// Takes a frame. Not inlined: a function pays for the room of all its values, and writes come most.
    #[inline(never)]
    fn deliver(&mut self, frame: Frame) -> Result<Outs, Fault>
        ensures ends { (opening : Opening) (past : List FrameEntry) →
            StandsFor N.note self.old opening past →
            Ends (steps N.note opening) past (Deliver frame) self.old self.new result }
        ensures ranges { (opening : Opening) (past : List FrameEntry) →
            StandsFor N.note self.old opening past →
            HearsInRange IsInRange (sense opening past (Deliver frame)) result }
    {
        self.hearer.deliver(frame)
    }
}
