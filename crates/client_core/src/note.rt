//! What outlasts a cut: the bytes of a client's note.

ghost use Rattle.std.specs.Prelude.{◌≡◌, IfOk, OnErr};
ghost use Rattle.client_core.specs.Note.{spelling, blank, new_note, is_blank, HasStates, Reads, ReadsNumbers, TellsStates, SaysOneThing, SaysWhatIsWritten};

use crate::generation::NotedGeneration;
use fc_base::{put_u32, put_u64, split_u32, split_u64};
use std::alloc::{AllocError, Global};
use verify_state::{
    KEPT_LIMIT, StateTable, one_spelling, put_states, read_were_spelled, spelled_are_read,
    states_in,
};

/// The bytes with which each note begins.
const MAGIC: &[u8; 4] = b"FCC2";

/// Those of a note from before there were generations.
const OLD_MAGIC: &[u8; 4] = b"FCC1";

/// How many bytes a generation is written in.
const GENERATION_LENGTH: usize = 8;

/// How many bytes stand behind the generation and before the states.
const NUMBERS: usize = 20;

/// How many numbers each generation has.
pub(crate) const GENERATION_NUMBERS: u64 = 4_294_967_296;

/// What a client's note says. A blank note says that nothing was begun, and keeps no state, and it is of
/// no generation.
pub struct ClientNote {
    /// Its generation, 0 where it has none.
    pub generation: NotedGeneration,
    /// The number up to which runs are used: without a generation, how many were begun.
    pub runs: u64,
    /// The number up to which attempts to verify are used, likewise.
    pub attempts: u64,
    /// The kept states.
    pub kept: StateTable,
}

/// By hand, so that the crates above need no proof of it.
impl Drop for ClientNote {
    fn drop(self) {
        let ClientNote {
            generation: _,
            runs: _,
            attempts: _,
            kept: _,
        } = self;
    }
}

impl ClientNote {
    /// What a blank note says. It takes no memory.
    pub fn blank(alloc: Global) -> ClientNote
        ensures { result ≡ blank }
    {
        ClientNote {
            generation: NotedGeneration::none(),
            runs: 0,
            attempts: 0,
            kept: StateTable::new(alloc),
        }
    }

    /// What a note says that begins anew with this generation. It takes no memory.
    pub fn renewed(alloc: Global, generation: NotedGeneration) -> ClientNote
        ensures { result ≡ new_note generation }
    {
        let used = generation.number() * GENERATION_NUMBERS;
        ClientNote {
            generation,
            runs: used,
            attempts: used,
            kept: StateTable::new(alloc),
        }
    }

    /// Whether it says what a blank note says.
    pub fn is_blank(&self) -> bool
        ensures value { result ≡ is_blank self.now }
    {
        self.generation.number() == 0
            && (self.runs == 0 && (self.attempts == 0 && self.kept.len() == 0))
    }

    /// The bytes of the note, which has each state in its one spelling.
    pub fn encode(&self, alloc: Global) -> Result<Vec<u8>, AllocError>
        ensures { IfOk result (λ bytes. bytes.items ≡ spelling self.now) }
    {
        let states = self.kept.as_slice();
        let length = MAGIC.len() + GENERATION_LENGTH + NUMBERS + 140 * self.kept.len();
        let mut bytes = Vec::with_capacity(alloc, length)?;
        bytes.extend_from_slice(MAGIC)?;
        put_u64(&mut bytes, self.generation.number())?;
        put_u64(&mut bytes, self.runs)?;
        put_u64(&mut bytes, self.attempts)?;
        put_u32(&mut bytes, self.kept.len() as u32)?;
        put_states(&mut bytes, states)?;
        Ok(bytes)
    }

    /// What these bytes say, `None` where they are no note. No bytes at all are a blank one. States may
    /// stand in it in either layout. Memory is asked for only once as many sound states are seen to be
    /// there as the note tells of.
    pub fn decode(alloc: Global, bytes: &[u8]) -> Result<Option<ClientNote>, AllocError>
        ensures said { IfOk result (Reads bytes.now) }
        ensures memory { OnErr result (HasStates bytes.now) }
    {
        if bytes.is_empty() {
            return Ok(Some(ClientNote::blank(alloc)));
        }
        if let Some(rest) = bytes.strip_prefix(OLD_MAGIC) {
            return numbers_in(alloc, NotedGeneration::none(), rest);
        }
        let Some(rest) = bytes.strip_prefix(MAGIC) else {
            return Ok(None);
        };
        if rest.len() < GENERATION_LENGTH {
            return Ok(None);
        }
        let (generation, rest) = split_u64(rest);
        match NotedGeneration::of_note(generation) {
            Some(generation) => numbers_in(alloc, generation, rest),
            None => Ok(None),
        }
    }
}

/// What a note of this generation says, by what stands behind the generation.
fn numbers_in(
    alloc: Global,
    generation: NotedGeneration,
    bytes: &[u8],
) -> Result<Option<ClientNote>, AllocError>
    ensures said { IfOk result (ReadsNumbers generation bytes.now) }
    ensures memory { OnErr result (TellsStates bytes.now) }
{
    spelled_are_read();
    read_were_spelled();
    let _number = generation.number();
    if bytes.len() < NUMBERS {
        return Ok(None);
    }
    let (runs, rest) = split_u64(bytes);
    let (attempts, rest) = split_u64(rest);
    let (count, states) = split_u32(rest);
    if count as usize > KEPT_LIMIT {
        return Ok(None);
    }
    match states_in(alloc, count, states)? {
        Some(kept) => Ok(Some(ClientNote {
            generation,
            runs,
            attempts,
            kept,
        })),
        None => Ok(None),
    }
}

/// Bytes say one thing at most.
pub fn one_note()
    ensures { SaysOneThing }
{
    spelled_are_read();
}

/// What is written is read back.
pub fn notes_are_read_back()
    ensures { SaysWhatIsWritten }
{
    one_spelling();
}
