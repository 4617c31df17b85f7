//! The open writes of a job, each with its block.

ghost use Rattle.std.specs.Prelude.{◌≡◌, ◌==◌, ◌&&◌, not, filter};
ghost use Rattle.std.specs.List.{find, list_any};
ghost use Rattle.std.specs.Vec.{vec_capacity};

use fc_base::Seq;

/// A write that is neither done nor failed.
#[derive(Clone, Copy)]
pub(crate) struct OpenWrite {
    pub(crate) seq: Seq,
    pub(crate) block: u32,
}

/// Whether an open write goes to this block.
pub(crate) fn has_block(writes: &[OpenWrite], block: u32) -> bool
    ensures { result ≡ list_any (λ write. write.block == block) writes.now }
{
    writes.iter().any(|write| write.block == block)
}

/// Whether the write of this number is open and goes to this block.
pub(crate) fn has_write(writes: &[OpenWrite], seq: Seq, block: u32) -> bool
    ensures { result ≡ list_any (λ write. write.seq == seq && write.block == block) writes.now }
{
    writes
        .iter()
        .any(|write| write.seq == seq && write.block == block)
}

/// The open write of this number, if there is one.
pub(crate) fn write_of(writes: &[OpenWrite], seq: Seq) -> Option<OpenWrite>
    ensures { result ≡ find (λ write. write.seq == seq) writes.now }
{
    writes.iter().find(|write| write.seq == seq).copied()
}

/// Takes the write of this number out.
pub(crate) fn close(writes: &mut Vec<OpenWrite>, seq: Seq)
    ensures items { writes.new.items ≡ filter (λ write. not (write.seq == seq)) writes.old.items }
    ensures room { vec_capacity writes.new ≡ vec_capacity writes.old }
{
    writes.retain(|write| write.seq != seq);
}
