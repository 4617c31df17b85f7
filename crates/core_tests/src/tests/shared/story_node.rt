//! What a node is to its stories.

use super::draft::Draft;
use super::spelling::Ends;
use super::trouble::Trouble;
use disk_model::FaultNotes;
use fc_base::Fault;
use messages::{Frame, Frames};
use std::alloc::Global;

/// A node that is on.
pub trait Node: Sized {
    /// How it is opened.
    type Opening: Copy;

    /// What a row says of that, if it does.
    fn opening_in(words: &str) -> Option<Self::Opening>;

    /// Opens a node over its notes, among so many servers.
    fn open(
        alloc: Global,
        servers: u32,
        opening: &Self::Opening,
        notes: FaultNotes,
    ) -> Result<Self, (FaultNotes, Fault)>;

    /// Takes it off.
    fn off(self) -> FaultNotes;

    /// Between whom the frames go that come to it, where rows don't say.
    fn ends() -> Ends;

    /// Puts the bytes of a note that words say.
    fn put_note(draft: &mut Draft, words: &str);

    /// Whether a row with this word asks for what the node shows.
    fn is_look(word: &str) -> bool;

    /// Whether the node shows what the words say of this.
    fn shows(&self, alloc: Global, word: &str, of: &str, words: &str) -> Result<bool, Trouble>;

    /// Whether it was opened as these words say, which stand behind a 0 in a row of notes.
    fn is_opened_as(&self, words: &str) -> bool;

    /// Whether the delivery of a frame would make a save.
    fn would_save(&self, frame: &Frame) -> Result<bool, Trouble>;

    /// Whether a row with this word asks something of the node.
    fn is_request(word: &str) -> bool;

    /// Asks what a row says: why the node refuses, if it does.
    fn ask(&mut self, words: &str) -> Result<Option<Fault>, Trouble>;

    /// Delivers a frame: why the node refuses it, if it does.
    fn deliver(&mut self, frame: Frame) -> Result<Option<Fault>, Trouble>;

    /// Whether an answer says what was given last, beside frames.
    fn is_given(&self, words: &str) -> Result<bool, Trouble>;

    /// The frames that were given last.
    fn sent(&self) -> Option<&Frames>;
}
