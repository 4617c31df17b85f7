//! A server over its durable note, to which whole packets come.

ghost use Rattle.std.specs.Prelude.{◌≡◌, ◌<◌, IsTrue, List, is_some};
ghost use Rattle.fc_base.specs.declared.limits.TheConstants.{MAX_SERVERS};
ghost use Rattle.server_core.specs.declared.input.Input.TheVariants.{Deliver};
ghost use Rattle.server_core.specs.Ends.{IsRead};
ghost use Rattle.messages.specs.Ranges.{is_run};

mod packet_core;

use crate::input::Input;
use crate::law::{frames_are_short, packets_are_in_range};
use crate::machine::Machine;
use crate::note::{ServerNote, one_note};
use crate::outs::Outs;
use disk_model::Notes;
use fc_base::{Fault, RunNo, ServerNo};
use messages::Packet;
use node::Durable;
use std::alloc::Global;

/// A server to which whole packets come.
#[derive(Drop)]
pub(crate) struct PacketServer<N> {
    pub durable: Durable<N>,
    pub machine: Machine,
}

impl<N: Notes> PacketServer<N> {
    ghost use Rattle.server_core.specs.History.{Opening, Entry};
    ghost use Rattle.server_core.specs.Words.{due};
    ghost use Rattle.node.specs.Steps.{Ends};
    ghost use Rattle.server_core.specs.Ends.{StandsFor, steps, Starts, Opens};

    /// Opens the server with this number over its note, where it saves the next boot before it answers;
    /// a blank note has none yet. Where it isn't opened, the notes come back.
    ///
    /// `LoadFault`, `BadNote`, `NumbersSpent` after the last boot, `NoMemory`: the notes hold what they
    /// held. `SaveFault`: they hold that, or the next boot.
    pub(crate) fn restart(
        alloc: Global,
        me: ServerNo,
        notes: N,
    ) -> Result<PacketServer<N>, (N, Fault)>
        requires { me < MAX_SERVERS }
        ensures { Opens N.note me notes result }
    {
        one_note();
        let mut notes = notes;
        let noted = match read(&mut notes) {
            Ok(noted) => noted,
            Err(fault) => return Err((notes, fault)),
        };
        let ServerNote { boot, last_run } = noted;
        let boot = boot + 1;
        let bytes = ServerNote { boot, last_run }.encode();
        match notes.save(&bytes) {
            Ok(()) => Ok(PacketServer {
                durable: Durable::new(notes),
                machine: Machine::new(alloc, me, boot, last_run),
            }),
            Err(Fault::NoMemory) => Err((notes, Fault::NoMemory)),
            Err(_) => Err((notes, Fault::SaveFault)),
        }
    }

    /// Whether the delivery of this packet would make a save: it is a Start that is due to record a run.
    pub(crate) fn would_save(&self, packet: &Packet) -> bool
        ensures { (opening : Opening) (past : List Entry) → StandsFor N.note self.now opening past →
            result ≡ is_some (due opening past (Deliver packet.now)) }
    {
        !self.durable.is_down() && self.machine.due_by(packet).is_some()
    }

    /// Takes what comes. A Start that is due is recorded before it is answered.
    ///
    /// `Down`: a save has failed, and nothing changes until the server is restarted. `NoMemory`:
    /// nothing changes. `SaveFault`: the device failed, and the server is down. Any other fault is a
    /// refusal, which changes nothing.
    pub(crate) fn step(&mut self, input: Input<Packet>) -> Result<Outs, Fault>
        ensures { (opening : Opening) (past : List Entry) → StandsFor N.note self.old opening past →
            Ends (steps N.note opening) past input self.old self.new result }
    {
        if self.durable.is_down() {
            return Err(Fault::Down);
        }
        input.keeps_its_ranges();
        frames_are_short();
        packets_are_in_range();
        match self.machine.due(&input) {
            Some(run) => self.start(run),
            None => self.machine.accept(input),
        }
    }

    /// Records the staged run, which then begins.
    fn start(&mut self, run: RunNo) -> Result<Outs, Fault>
        requires { IsTrue (is_run run) }
        ensures { Starts N.note run self.old self.new result }
    {
        let frames = self.machine.start_frames(run)?;
        let engines = self.machine.engines()?;
        let noted = ServerNote {
            boot: self.machine.boot,
            last_run: run,
        };
        self.durable.save(&noted.encode())?;
        self.machine.begin(engines);
        Ok(Outs::sent(frames))
    }
}

/// What a note says, where its boots aren't used up.
fn read<N: Notes>(notes: &mut N) -> Result<ServerNote, Fault>
    ensures { IsRead (N.note notes.old) (N.note notes.new) result }
{
    match notes.load() {
        Ok(bytes) => match ServerNote::decode(&bytes) {
            Some(noted) if noted.boot == u64::MAX => Err(Fault::NumbersSpent),
            Some(noted) => Ok(noted),
            None => Err(Fault::BadNote),
        },
        Err(Fault::NoMemory) => Err(Fault::NoMemory),
        Err(_) => Err(Fault::LoadFault),
    }
}
