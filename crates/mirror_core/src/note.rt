//! What outlasts a cut: the bytes of a mirror's note.

ghost use Rattle.std.specs.Prelude.{◌≡◌, IfOk, OnErr};
ghost use Rattle.mirror_core.specs.Note.{spelling, blank, HasStates, Reads, SaysOneThing, SaysWhatIsWritten};

use fc_base::{MAX_GENERATION, put_u32, put_u64, split_u32, split_u64};
use std::alloc::{AllocError, Global};
use verify_state::{
    KEPT_LIMIT, StateTable, one_spelling, put_states, read_were_spelled, spelled_are_read,
    states_in,
};

/// The bytes with which each note begins.
const MAGIC: &[u8; 4] = b"FCM1";

/// How many bytes stand behind the magic and before the states.
const NUMBERS: usize = 12;

/// What a mirror's note says. A blank note has generation 0 and keeps no state.
#[derive(Drop)]
pub struct MirrorNote {
    /// The greatest generation that was asked for, at most [`MAX_GENERATION`]; 0 where none was.
    pub generation: u64,
    /// The kept states.
    pub kept: StateTable,
}

impl MirrorNote {
    /// What a blank note says. It takes no memory.
    pub fn blank(alloc: Global) -> MirrorNote
        ensures { result ≡ blank }
    {
        MirrorNote {
            generation: 0,
            kept: StateTable::new(alloc),
        }
    }

    /// The bytes of the note, which has each state in its one spelling.
    pub fn encode(&self, alloc: Global) -> Result<Vec<u8>, AllocError>
        ensures { IfOk result (λ bytes. bytes.items ≡ spelling self.now) }
    {
        let states = self.kept.as_slice();
        let mut bytes = Vec::with_capacity(alloc, MAGIC.len() + NUMBERS + 140 * self.kept.len())?;
        bytes.extend_from_slice(MAGIC)?;
        put_u64(&mut bytes, self.generation)?;
        put_u32(&mut bytes, self.kept.len() as u32)?;
        put_states(&mut bytes, states)?;
        Ok(bytes)
    }

    /// What these bytes say, `None` where they are no note. No bytes at all are a blank one. States may
    /// stand in it in either layout. Memory is asked for only once as many sound states are seen to be
    /// there as the note tells of.
    pub fn decode(alloc: Global, bytes: &[u8]) -> Result<Option<MirrorNote>, AllocError>
        ensures said { IfOk result (Reads bytes.now) }
        ensures memory { OnErr result (HasStates bytes.now) }
    {
        spelled_are_read();
        read_were_spelled();
        if bytes.is_empty() {
            return Ok(Some(MirrorNote::blank(alloc)));
        }
        let Some(rest) = bytes.strip_prefix(MAGIC) else {
            return Ok(None);
        };
        if rest.len() < NUMBERS {
            return Ok(None);
        }
        let (generation, rest) = split_u64(rest);
        let (count, states) = split_u32(rest);
        if generation > MAX_GENERATION {
            return Ok(None);
        }
        if count as usize > KEPT_LIMIT {
            return Ok(None);
        }
        match states_in(alloc, count, states)? {
            Some(kept) => Ok(Some(MirrorNote { generation, kept })),
            None => Ok(None),
        }
    }
}

/// Bytes say one thing at most.
pub fn one_note()
    ensures { SaysOneThing }
{
    spelled_are_read();
}

/// What is written is read back.
pub fn notes_are_read_back()
    ensures { SaysWhatIsWritten }
{
    one_spelling();
}
