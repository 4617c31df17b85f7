//! The order of a write that is carried out elsewhere.

ghost use Rattle.std.specs.Prelude.{◌≡◌, ◌++◌, length, OnOk};
ghost use Rattle.std.specs.Io.KnownBytes.{Appends};
ghost use Rattle.write_order.specs.Blocks.{block_of};
ghost use Rattle.targets.specs.Orders.{order_bytes};

use engine::Ticket;
use fc_base::JobRecord;
use std::io;
use std::io::Write;
use write_order::fill_block;

/// Writes the order of a write behind these bytes, by way of the bytes of its block.
pub(crate) fn put_order_behind<W: Write>(
    writer: &mut W,
    head: &[u8],
    rec: &JobRecord,
    ticket: Ticket,
    block: &mut [u8],
) -> io::Result<()>
    requires bytes { length block.old ≡ rec.now.bs }
    requires block { ticket.block ≡ block_of rec.now ticket.seq }
    ensures { OnOk result (Appends (W.contents writer.old) (W.contents writer.new)
        (head.now ++ order_bytes ticket.key rec.now ticket.seq)) }
{
    writer.write_all(head)?;
    put_order(writer, rec, ticket, block)
}

/// Writes the order of a write, by way of the bytes of its block: its number and its block, eight bytes each, the
/// high byte first, and what it puts into the block.
fn put_order<W: Write>(
    writer: &mut W,
    rec: &JobRecord,
    ticket: Ticket,
    block: &mut [u8],
) -> io::Result<()>
    requires bytes { length block.old ≡ rec.now.bs }
    requires block { ticket.block ≡ block_of rec.now ticket.seq }
    ensures { OnOk result (Appends (W.contents writer.old) (W.contents writer.new)
        (order_bytes ticket.key rec.now ticket.seq)) }
{
    let Ticket {
        boot: _,
        key,
        seq,
        block: number,
    } = ticket;
    fill_block(key, rec, seq, number, block);
    writer.write_all(&seq.0.to_be_bytes())?;
    writer.write_all(&u64::from(number).to_be_bytes())?;
    writer.write_all(block)
}
