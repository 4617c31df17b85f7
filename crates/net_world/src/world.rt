//! A world in memory: its nodes, their notes and files, and every frame that was ever sent.

ghost use Rattle.std.specs.Prelude.{◌≡◌, ◌≤◌, ◌+◌, ◌*◌, ◌&&◌, [], List, length, nat_lt, IfOk, OnOk, OnErr, ◌∷◌};
ghost use Rattle.std.specs.Option.{option_copied};
ghost use Rattle.fc_base.specs.declared.limits.TheConstants.{MAX_JOBS, MAX_SERVERS};
ghost use Rattle.net_world.specs.Setup.{Setup, setup_of};

mod ask;
mod bar;
mod check;
mod client_cut;
mod client_power;
mod cut_in;
mod deliver;
mod find;
mod mirror;
mod open;
mod power;
mod renewal;
mod serve;
mod write;

use crate::client_node::ClientNode;
use crate::config::Config;
use crate::event::{PlainEvent, WorldEvent};
use crate::frame_log::FrameLog;
use crate::mirror_node::MirrorSlot;
use crate::server_node::ServerNode;
use crate::told::Told;
use crate::world::open::{open_client, open_files, open_mirror, open_servers};
use crate::{client_node, server_node};
use client_core::Input;
use disk_model::MemDisk;
use fc_base::{Fault, FaultSort, JobNo, Key, MAX_JOBS, ServerNo};
use server_core::{Status, WriteEnd, looks_at_all};
use std::alloc::{AllocError, Global};
use verify_state::VerifyState;

/// A world: a client, its servers, a mirror or none, 16 files of each server, one server's after the
/// other's, and every frame that was ever sent.
pub struct World {
    alloc: Global,
    servers: Vec<ServerNode>,
    client: ClientNode,
    mirror: MirrorSlot,
    files: Vec<MemDisk>,
    sent: FrameLog,
    /// The block of the write that landed last, for whose memory the next one needn't ask.
    block: Vec<u8>,
    ghost some: { 1 ≤ length servers.items },
    ghost few: { length servers.items ≤ MAX_SERVERS },
}

/// It is written by hand so that it is one function: where it is derived, the proof of each function that
/// drops a world goes through all that a world holds.
impl Drop for World {
    fn drop(self) {
        let World {
            alloc: _,
            servers: _,
            client,
            mirror: _,
            files: _,
            sent: _,
            block: _,
        } = self;
        let _notes = client.into_notes();
    }
}

impl World {
    ghost use Rattle.net_world.specs.Happenings.{Happening};
    ghost use Rattle.net_world.specs.Events.{plain_happening, happening};
    ghost use Rattle.net_world.specs.Changes.{Change};
    ghost use Rattle.net_world.specs.Sending.{sent_in};
    ghost use Rattle.net_world.specs.World.{world, frames, saved_state, status};
    ghost use Rattle.net_world.specs.Stands.{StandsFor};
    ghost use Rattle.net_world.specs.Ends.{Ends};

    /// A world of so many servers, and of a mirror or none. All nodes are on, the servers at their first
    /// boot, and with a mirror the client in its first generation.
    pub fn new(alloc: Global, config: Config) -> Result<World, AllocError>
        requires some { 1 ≤ config.servers }
        requires few { config.servers ≤ MAX_SERVERS }
        ensures { IfOk result (StandsFor (setup_of config) []) }
    {
        let servers = open_servers(alloc, config.servers)?;
        let files = open_files(alloc, MAX_JOBS * config.servers)?;
        let mirror = open_mirror(alloc, config)?;
        let client = open_client(alloc, config)?;
        Ok(World {
            alloc,
            servers,
            client,
            mirror,
            files,
            sent: FrameLog::new(alloc),
            block: Vec::new(alloc),
        })
    }

    /// Something happens.
    ///
    /// The refusals, in this order: `NoServer` and `NoMirror`; `NodeOff`; `NodeOn`; `NoFrame`; `NoWrite`;
    /// `BadGeneration`; `UsedGeneration`; those of the node, in whose place a cut within a save answers
    /// `NoSave`. A refused event changes nothing, but for
    /// `FrameBadField`: the node has dropped what came together of the frame's body. `NoMemory`: nothing
    /// has happened.
    pub fn apply(&mut self, event: &WorldEvent) -> Result<Told, Fault>
        ensures { (w : Setup) (events : List Happening) → StandsFor w (world w events) self.old →
            Ends w (world w events) (happening event.now) self.new result }
    {
        match event {
            WorldEvent::Plain(event) => self.happen(event),
            WorldEvent::CutIn { landed, event } => self.cut_in(*landed, event),
        }
    }

    /// Something happens, which is passed over where it is refused. An error is that memory ran out:
    /// nothing has happened.
    pub(crate) fn pass(&mut self, event: &WorldEvent) -> Result<(), AllocError>
        ensures passed { OnOk result
            ((w : Setup) (events : List Happening) → StandsFor w (world w events) self.old →
            StandsFor w (world w (happening event.now ∷ events)) self.new) }
        ensures spent { OnErr result
            ((w : Setup) (events : List Happening) → StandsFor w (world w events) self.old →
            StandsFor w (world w events) self.new) }
    {
        match self.apply(event) {
            Ok(_) => Ok(()),
            Err(fault) => match fault.sort() {
                FaultSort::Memory => Err(AllocError),
                _ => Ok(()),
            },
        }
    }

    /// Something happens, but for a cut within a save.
    fn happen(&mut self, event: &PlainEvent) -> Result<Told, Fault>
        ensures { (w : Setup) (events : List Happening) → StandsFor w (world w events) self.old →
            Ends w (world w events) (plain_happening event.now) self.new result }
    {
        match event {
            PlainEvent::Begin { text } => self.ask(Input::Begin(text)),
            PlainEvent::Trigger { run, act } => self.ask(Input::Trigger(*run, *act)),
            PlainEvent::StopRun { run } => self.ask(Input::Stop(*run)),
            PlainEvent::Verify { run, text } => self.ask(Input::Verify(*run, text)),
            PlainEvent::Tick => self.ask(Input::Tick),
            PlainEvent::Deliver { frame } => self.deliver(*frame),
            PlainEvent::Issue { server, job } => self.issue(*server, *job),
            PlainEvent::Land {
                server,
                job,
                write,
                mask,
            } => self.land(*server, *job, *write, *mask),
            PlainEvent::Done { server, job, write } => {
                self.end(*server, *job, *write, WriteEnd::Done)
            }
            PlainEvent::Fail { server, job, write } => {
                self.end(*server, *job, *write, WriteEnd::Failed)
            }
            PlainEvent::Rot {
                server,
                job,
                sector,
                bytes,
            } => self.rot(*server, *job, *sector, bytes),
            PlainEvent::Check { server, job } => self.check(*server, *job),
            PlainEvent::Cut { node } => self.cut(*node),
            PlainEvent::Restart { node } => self.restart(*node),
            PlainEvent::LoseNote => self.lose_note(),
            PlainEvent::Renew { generation } => self.renew(*generation),
        }
    }

    /// The frames that were ever sent, numbered from 0.
    pub fn frames(&self) -> &FrameLog
        ensures { (w : Setup) (past : List Change) → StandsFor w past self.now →
            sent_in result.now ≡ frames w past }
    {
        &self.sent
    }

    /// The state that the client keeps of a key, while it is on.
    pub fn saved(&self, key: Key) -> Option<&VerifyState>
        ensures { (w : Setup) (past : List Change) → StandsFor w past self.now →
            option_copied result ≡ saved_state w past key }
    {
        client_core::looks_at_all();
        match client_node::client(&self.client) {
            Some(client) => client.saved(key),
            None => None,
        }
    }

    /// What a server shows of itself, while it is there and on.
    pub fn status(&self, server: ServerNo) -> Option<Status>
        ensures { (w : Setup) (past : List Change) → StandsFor w past self.now →
            result ≡ status w past server }
    {
        looks_at_all();
        if !self.has_server(server) {
            return None;
        }
        match server_node::server(&self.servers[server.0 as usize]) {
            Some(core) => Some(core.status()),
            None => None,
        }
    }

    /// How many servers it has.
    fn count(&self) -> u32
        ensures value { result ≡ length self.now.servers.items }
        ensures some { 1 ≤ result }
        ensures few { result ≤ MAX_SERVERS }
    {
        self.servers.as_slice().len() as u32
    }

    /// Whether it has this server.
    pub(crate) fn has_server(&self, server: ServerNo) -> bool
        ensures { result ≡ nat_lt server (length self.now.servers.items) }
    {
        (server.0 as usize) < self.servers.as_slice().len()
    }

    /// Whether it has a file of this job at this server.
    pub(crate) fn has_file(&self, server: ServerNo, job: JobNo) -> bool
        ensures { result
            ≡ (nat_lt job MAX_JOBS && nat_lt (MAX_JOBS * server + job)
            (length self.now.files.items)) }
    {
        job.0 < MAX_JOBS && place_of(server, job) < self.files.as_slice().len()
    }
}

/// Where the file of a job lies among those of a world.
pub(crate) fn place_of(server: ServerNo, job: JobNo) -> usize
    ensures { result ≡ MAX_JOBS * server + job }
{
    MAX_JOBS as usize * server.0 as usize + job.0 as usize
}
