//! The writes of a world: they are issued, land, and are done or fail.

ghost use Rattle.std.specs.Prelude.{◌≡◌, List, OnOk};
ghost use Rattle.write_order.specs.Stamps.{written_bytes};
ghost use Rattle.net_world.specs.Setup.{Setup};
ghost use Rattle.net_world.specs.Changes.{Change};
ghost use Rattle.net_world.specs.Ends.{Ends};
ghost use Rattle.net_world.specs.Happenings.{Issue as Issues, Land, Rot};
ghost use Rattle.net_world.specs.Events.{happening_of_end};
ghost use Rattle.net_world.specs.Stands.{StandsFor};

use super::{World, place_of};
use crate::told::Told;
use fc_base::{Fault, JobNo, JobRecord, Key, MAX_BLOCKS, Seq, ServerNo};
use server_core::{Input, WriteEnd};
use std::alloc::AllocError;
use write_order::{fill_block, writes_fill_their_blocks, writes_stay_in_the_region};

impl World {
    /// A worker asks for the next write of a job.
    pub(super) fn issue(&mut self, server: ServerNo, job: JobNo) -> Result<Told, Fault>
        ensures { (w : Setup) (past : List Change) → StandsFor w past self.old →
            Ends w past (Issues server job) self.new result }
    {
        self.serve(server, Input::Issue(job))
    }

    /// An open write has ended.
    #[inline(always)]
    pub(super) fn end(
        &mut self,
        server: ServerNo,
        job: JobNo,
        write: Seq,
        end: WriteEnd,
    ) -> Result<Told, Fault>
        ensures { (w : Setup) (past : List Change) → StandsFor w past self.old →
            Ends w past (happening_of_end end server job write) self.new result }
    {
        let found = self.open_write(server, job, write)?;
        self.serve_end(server, found.0, end)
    }

    /// Sectors of an open write land in its file.
    pub(super) fn land(
        &mut self,
        server: ServerNo,
        job: JobNo,
        write: Seq,
        mask: u128,
    ) -> Result<Told, Fault>
        ensures { (w : Setup) (past : List Change) → StandsFor w past self.old →
            Ends w past (Land server job write mask) self.new result }
    {
        writes_stay_in_the_region();
        writes_fill_their_blocks();
        let found = self.open_write(server, job, write)?;
        let (ticket, rec) = found;
        let _within_limits = rec.parts();
        // No open write lies past these ends.
        if !self.has_file(server, job) {
            return Err(Fault::NoWrite);
        }
        if ticket.block >= MAX_BLOCKS {
            return Err(Fault::NoWrite);
        }
        let Ok(first) = self.sent.settle() else {
            return Err(Fault::NoMemory);
        };
        let Ok(()) = fill(&mut self.block, ticket.key, &rec, write, ticket.block) else {
            return Err(Fault::NoMemory);
        };
        match self.files[place_of(server, job)].land(ticket.block, &self.block, mask) {
            Ok(()) => Ok(Told::plain(first)),
            Err(_) => Err(Fault::NoMemory),
        }
    }

    /// A sector of a file changes by itself.
    pub(super) fn rot(
        &mut self,
        server: ServerNo,
        job: JobNo,
        sector: u64,
        bytes: &[u8; 512],
    ) -> Result<Told, Fault>
        ensures { (w : Setup) (past : List Change) → StandsFor w past self.old →
            Ends w past (Rot server job sector bytes.now) self.new result }
    {
        if !self.has_server(server) {
            return Err(Fault::NoServer);
        }
        if !self.has_file(server, job) {
            return Err(Fault::NoWrite);
        }
        let Ok(first) = self.sent.settle() else {
            return Err(Fault::NoMemory);
        };
        match self.files[place_of(server, job)].rot(sector, *bytes) {
            Ok(()) => Ok(Told::plain(first)),
            Err(_) => Err(Fault::NoMemory),
        }
    }
}

/// Fills a block with the bytes of a write. Only a longer one than before asks for memory.
fn fill(
    bytes: &mut Vec<u8>,
    key: Key,
    rec: &JobRecord,
    write: Seq,
    block: u32,
) -> Result<(), AllocError>
    ensures { OnOk result (bytes.new.items ≡ written_bytes key rec.now write block) }
{
    bytes.resize(rec.bs() as usize, 0)?;
    fill_block(key, rec, write, block, bytes);
    Ok(())
}
