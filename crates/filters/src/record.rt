//! A record that was read, and what stands before its body.

ghost use Rattle.std.specs.Prelude.{◌≡◌, length};
ghost use Rattle.filters.specs.Records.{head_bytes};

use fc_base::{split_u8, split_u64};

/// How many bytes stand before the body of a record: its kind, and its length in eight.
pub(crate) const HEAD: usize = 9;

/// How many bytes a body has at the most that is read: a mebibyte of blocks, and room for what names them.
pub const MAX_BODY: u64 = 1_114_112;

/// A record that was read: the number of its kind, which may be none's, and its body.
#[derive(Debug, Drop)]
pub(crate) struct Record {
    pub kind: u8,
    pub body: Vec<u8>,
}

/// What stands before a body.
#[derive(Clone, Copy, Debug)]
pub(crate) struct Head {
    pub kind: u8,
    /// How many bytes the body has.
    pub length: u64,
}

/// The head that these nine bytes are.
pub(crate) fn head_in(bytes: &[u8]) -> Head
    requires { length bytes.now ≡ HEAD }
    ensures { bytes.now ≡ head_bytes result.kind result.length }
{
    let (kind, rest) = split_u8(bytes);
    let (length, _) = split_u64(rest);
    Head { kind, length }
}

/// Whether all of the next record stands in these bytes: what is waited for is not behind it.
pub(crate) fn holds_record(bytes: &[u8]) -> bool {
    if bytes.len() < HEAD {
        return false;
    }
    let (front, rest) = bytes.split_at(HEAD);
    let head = head_in(front);
    rest.len() as u64 >= head.length
}
