//! What comes, but for a Start that is due to record a run.

ghost use Rattle.std.specs.Prelude.{◌≡◌, true};
ghost use Rattle.messages.specs.Ranges.{is_body};
ghost use Rattle.server_core.specs.declared.input.Input.TheVariants.{Deliver};
ghost use Rattle.server_core.specs.Request.{request_of, request_in};
ghost use Rattle.server_core.specs.Handles.{Handled, EachUndue};

use super::Machine;
use crate::input::Input;
use crate::outs::Outs;
use fc_base::Fault;
use messages::{Body, Packet, PacketParts};

impl Machine {
    /// Accepts what comes. A Start has to be one that isn't due to record a run.
    pub(crate) fn accept(&mut self, input: Input<Packet>) -> Result<Outs, Fault>
        ensures { EachUndue self.old (request_of self.old.me input)
            (λ now. Handled now (request_of self.old.me input) self.old self.new result) }
    {
        match input {
            Input::Deliver(packet) => self.deliver(packet),
            Input::Issue(job) => Outs::issued(self.alloc, Ok(self.issue(job))),
            Input::WriteDone(ticket, end) => Outs::ended(self.alloc, self.end_write(ticket, end)),
            Input::CheckDone {
                boot,
                attempt,
                job,
                report,
            } => self.handle_report(boot, attempt, job, report),
        }
    }

    /// Accepts a packet, where it is for this server and from the client.
    fn deliver(&mut self, packet: Packet) -> Result<Outs, Fault>
        ensures { EachUndue self.old (request_of self.old.me (Deliver packet))
            (λ now. Handled now (request_of self.old.me
            (Deliver packet)) self.old self.new result) }
    {
        let PacketParts { from, to, body } = packet.into_parts();
        if !from.is_client() || !to.is_server(self.me) {
            return Err(Fault::Misdirected);
        }
        self.serve(body)
    }

    /// Takes what the client says.
    fn serve(&mut self, body: Body) -> Result<Outs, Fault>
        requires { is_body body ≡ true }
        ensures { EachUndue self.old (request_in body)
            (λ now. Handled now (request_in body) self.old self.new result) }
    {
        match body {
            Body::Jobs { run, text } => self.handle_jobs(run, &text),
            Body::Start { run } => self.handle_start(run),
            Body::Trigger { run, act } => self.handle_trigger(run, act),
            Body::StateAck { run, job } => self.handle_mark(run, job),
            Body::Stop { run } => self.handle_stop(run),
            Body::Verify { run, attempt, text } => self.handle_verify(run, attempt, &text),
            Body::Saved { attempt, state } => self.handle_state(attempt, &state),
            Body::NoSaved { attempt, job, .. } => self.handle_no_state(attempt, job),
            _ => Err(Fault::Misdirected),
        }
    }
}
