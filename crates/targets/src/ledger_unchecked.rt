//! The line of the blocks of which a ledger asks for nothing.

ghost use Rattle.std.specs.Prelude.{◌≡◌, ◌<◌, OnOk, length};
ghost use Rattle.std.specs.List.{flat_map, range_with_len};
ghost use Rattle.std.specs.Io.KnownBytes.{Appends};
ghost use Rattle.ledger.specs.Places.{is_checked};
ghost use Rattle.targets.specs.Ledgers.{unasked_line};
ghost use Rattle.targets.specs.MapLines.{begins_unchecked, edge_words, ends_unchecked};

use crate::map_unchecked::write_edge;
use fc_base::MAX_BLOCKS;
use ledger::Ledger;
use std::io;
use std::io::Write;

/// Writes of which blocks nothing is asked, as `unchecked 5-9 12-12`.
pub(crate) fn write_unasked<W: Write>(writer: &mut W, ledger: &Ledger) -> io::Result<()>
    ensures { OnOk result (Appends (W.contents writer.old) (W.contents writer.new)
        (unasked_line ledger.now)) }
{
    write!(writer, "unchecked")?;
    write_edges(writer, ledger)?;
    writeln!(writer)
}

/// Writes the first and the last block of each extent of them.
fn write_edges<W: Write>(writer: &mut W, ledger: &Ledger) -> io::Result<()>
    ensures { OnOk result (Appends (W.contents writer.old) (W.contents writer.new)
        (flat_map (edge_words (is_checked ledger.now) (length ledger.now.entries))
        (range_with_len 0 (length ledger.now.entries)))) }
{
    for block in 0..ledger.blocks() {
        let begins = begins_unasked(ledger, block);
        write_edge(writer, block, begins, ends_unasked(ledger, block))?;
    }
    Ok(())
}

/// Whether they begin at this one.
fn begins_unasked(ledger: &Ledger, block: u32) -> bool
    ensures { result ≡ begins_unchecked (is_checked ledger.now) block }
{
    !ledger.wants(block) && (block == 0 || ledger.wants(block - 1))
}

/// Whether they end at this one.
fn ends_unasked(ledger: &Ledger, block: u32) -> bool
    requires { block < MAX_BLOCKS }
    ensures { result ≡ ends_unchecked (is_checked ledger.now) (length ledger.now.entries) block }
{
    !ledger.wants(block) && (block + 1 == ledger.blocks() || ledger.wants(block + 1))
}
