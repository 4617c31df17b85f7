//! How a write has ended that a worker has in hand.

ghost use Rattle.std.specs.Prelude.{◌≡◌, length};
ghost use Rattle.disk_model.specs.File.{IsBlock};
ghost use Rattle.write_order.specs.Stamps.{written_bytes};
ghost use Rattle.server_core.specs.declared.input.WriteEnd.TheVariants.{Failed};
ghost use Rattle.fleet_threads.specs.Block.{Lands};

use disk_model::Disk;
use engine::Ticket;
use fc_base::JobRecord;
use server_core::WriteEnd;

/// A write, and how it has ended. Only [`land`](UntoldEnd::land) makes one that is done, and whoever tells an end has one:
/// so a write that is told as done has landed before.
#[derive(Clone, Copy, PartialEq, Eq)]
pub(crate) struct UntoldEnd {
    ticket: Ticket,
    end: WriteEnd,
}

impl UntoldEnd {
    /// A write that nobody carries out.
    pub(crate) fn failed(ticket: &Ticket) -> UntoldEnd
        ensures ticket { result.ticket ≡ ticket.now }
        ensures end { result.end ≡ Failed }
    {
        UntoldEnd {
            ticket: *ticket,
            end: WriteEnd::Failed,
        }
    }

    /// Writes the block of a write, which was filled with its bytes.
    pub(crate) fn land<D: Disk>(
        disk: &mut D,
        ticket: &Ticket,
        rec: &JobRecord,
        bytes: &[u8],
    ) -> UntoldEnd
        requires block { IsBlock ticket.now.block (length bytes.now) }
        requires filled { bytes.now
            ≡ written_bytes ticket.now.key rec.now ticket.now.seq ticket.now.block }
        ensures ticket { result.ticket ≡ ticket.now }
        ensures lands { Lands (D.file disk.old) (D.file disk.new) ticket.now rec.now result.end }
    {
        match disk.write(ticket.boot, ticket.block, bytes) {
            Ok(()) => UntoldEnd {
                ticket: *ticket,
                end: WriteEnd::Done,
            },
            Err(_) => UntoldEnd::failed(ticket),
        }
    }

    /// The write.
    pub(crate) fn ticket(&self) -> &Ticket
        ensures { result.now ≡ self.now.ticket }
    {
        &self.ticket
    }

    /// How it has ended.
    pub(crate) fn end(&self) -> WriteEnd
        ensures { result ≡ self.now.end }
    {
        self.end
    }
}
