//! What a block holds.

use crate::stamp::Write;
use fc_base::Seq;

/// What a checked block holds, of which exactly one is so.
#[derive(Clone, Copy, Debug, PartialEq, Eq)]
pub enum Holds {
    /// Its last completed write, or one that was in flight to it: the block is no fault.
    Sound,
    /// Zeros: nothing was ever written there, or it was erased to zeros.
    Unwritten,
    /// This byte over and over, which is not zero.
    Filled(u8),
    /// The whole of an older write of this job to this block: the wanted one was lost.
    Lost(Seq),
    /// The whole of a write of this job to this block that was never issued, as far as the state
    /// knows: it is past the last completed one, and not in flight.
    Unissued(Seq),
    /// The whole of a write of another run.
    OtherRun(Write),
    /// The whole of a write of this run to another block, or of another job or server of it.
    Misdirected(Write),
    /// Sectors that are each known, but not all of one write: of several writes, or of a write and
    /// zeros.
    Torn,
    /// So many sectors that hold nothing that is known: at least one, or none where the block is a
    /// damaged copy of a write that it may hold, which differs from it in at most
    /// [`FEW_BITS`](crate::FEW_BITS).
    Corrupt(u32),
}
