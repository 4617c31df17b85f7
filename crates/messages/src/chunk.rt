//! A part of a body's bytes.

ghost use Rattle.std.specs.Prelude.{◌≡◌, ◌≤◌, length, IfOk};
ghost use Rattle.messages.specs.declared.limits.TheConstants.{CHUNK_LIMIT};

use std::alloc::{AllocError, Global};
use std::marker::Model;

/// Bytes of a body that go into one frame: at most 1,024 of them.
#[derive(Drop)]
pub struct Chunk {
    bytes: Vec<u8>,
}

impl Model for Chunk {
    ghost use Rattle.std.specs.Prelude.{List, ℕ, ◌≤◌, length};
    ghost use Rattle.messages.specs.declared.limits.TheConstants.{CHUNK_LIMIT};

    ghost Value = { List ℕ };

    ghost view = { λ c. c.bytes.items };

    ghost invariant = { λ c. length c.bytes.items ≤ CHUNK_LIMIT };
}

impl Chunk {
    /// A copy of these bytes.
    pub fn copied(alloc: Global, bytes: &[u8]) -> Result<Chunk, AllocError>
        requires { length bytes.now ≤ CHUNK_LIMIT }
        ensures { IfOk result (λ chunk. chunk ≡ bytes.now) }
    {
        Ok(Chunk {
            bytes: Vec::from_slice(alloc, bytes)?,
        })
    }

    /// The bytes.
    pub fn as_slice(&self) -> &[u8]
        ensures value { result.now ≡ self.now }
        ensures range { length result.now ≤ CHUNK_LIMIT }
    {
        &self.bytes
    }
}
