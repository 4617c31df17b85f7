//! What outlasts a cut: the bytes of a server's note.

ghost use Rattle.std.specs.Prelude.{◌≡◌};
ghost use Rattle.server_core.specs.Note.{spelling, Reads, SaysOneThing};

use fc_base::{RunNo, split_u64};

/// The bytes with which each note begins.
const MAGIC: &[u8; 4] = b"FCN1";

/// How many bytes a note has, where it has any.
const LENGTH: usize = 20;

/// What a server's note says. A blank note says 0 and 0.
#[derive(Clone, Copy, Debug, PartialEq, Eq)]
pub struct ServerNote {
    /// How often the server was restarted.
    pub boot: u64,
    /// The greatest run that was started.
    pub last_run: RunNo,
}

impl ServerNote {
    /// The bytes of the note. They take no memory.
    pub fn encode(self) -> [u8; LENGTH]
        ensures { result ≡ spelling self }
    {
        let mut bytes = [0; LENGTH];
        bytes[..4].copy_from_slice(MAGIC);
        bytes[4..12].copy_from_slice(&self.boot.to_be_bytes());
        bytes[12..].copy_from_slice(&self.last_run.0.to_be_bytes());
        bytes
    }

    /// What these bytes say, `None` where they are no note. No bytes at all are a blank note.
    pub fn decode(bytes: &[u8]) -> Option<ServerNote>
        ensures { Reads bytes.now result }
    {
        if bytes.is_empty() {
            return Some(ServerNote {
                boot: 0,
                last_run: RunNo(0),
            });
        }
        let numbers = bytes.strip_prefix(MAGIC)?;
        if numbers.len() != 16 {
            return None;
        }
        let (boot, rest) = split_u64(numbers);
        let (last_run, _) = split_u64(rest);
        Some(ServerNote {
            boot,
            last_run: RunNo(last_run),
        })
    }
}

/// Bytes say one thing at most.
pub fn one_note()
    ensures { SaysOneThing }
{}
