//! The text of a job file, as packets carry it.

ghost use Rattle.std.specs.Prelude.{◌≡◌, ◌≤◌, Ok, Err, if◌then◌else◌, nat_le, length, IfOk};

use fc_base::MAX_TEXT;
use std::alloc::{AllocError, Global};
use std::marker::Model;

/// A job file, of any bytes: at most 16,384 of them.
pub struct Text {
    bytes: Vec<u8>,
}

/// By hand, so that the crates above need no proof of it.
impl Drop for Text {
    fn drop(self) {
        let Text { bytes: _ } = self;
    }
}

impl Model for Text {
    ghost use Rattle.std.specs.Prelude.{List, ℕ, ◌≤◌, length};
    ghost use Rattle.fc_base.specs.declared.limits.TheConstants.{MAX_TEXT};

    ghost Value = { List ℕ };

    ghost view = { λ t. t.bytes.items };

    ghost invariant = { λ t. length t.bytes.items ≤ MAX_TEXT };
}

impl Text {
    /// The text of these bytes; where they are too many, they come back.
    pub fn make(bytes: Vec<u8>) -> Result<Text, Vec<u8>>
        ensures { result
            ≡ (if nat_le (length bytes.items) MAX_TEXT then Ok bytes.items else Err bytes) }
    {
        if bytes.len() <= MAX_TEXT {
            Ok(Text { bytes })
        } else {
            Err(bytes)
        }
    }

    /// The text of a copy of these bytes.
    pub fn copied(alloc: Global, bytes: &[u8]) -> Result<Text, AllocError>
        requires { length bytes.now ≤ MAX_TEXT }
        ensures { IfOk result (λ text. text ≡ bytes.now) }
    {
        Ok(Text {
            bytes: Vec::from_slice(alloc, bytes)?,
        })
    }

    /// The bytes.
    pub fn as_slice(&self) -> &[u8]
        ensures value { result.now ≡ self.now }
        ensures range { length result.now ≤ MAX_TEXT }
    {
        &self.bytes
    }

    /// The bytes, with the memory that they lie in.
    pub fn into_vec(self) -> Vec<u8>
        ensures value { result.items ≡ self }
        ensures range { length result.items ≤ MAX_TEXT }
    {
        let Text { bytes } = self;
        bytes
    }
}
