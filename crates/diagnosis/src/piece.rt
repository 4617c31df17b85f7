//! What a sector holds.

use crate::stamp::Stamp;

/// What a sector of a block holds.
#[derive(Clone, Copy, Debug, PartialEq, Eq)]
pub enum Piece {
    /// Zeros.
    Zeros,
    /// The pattern of the job, over and over. Only a job with `verify=pattern` has one.
    Pattern,
    /// A stamp. A job with `verify=pattern` writes none, so none is looked for.
    Stamp(Stamp),
    /// None of these.
    Unknown,
}
