//! A mirror that stories are told to.

use super::{looks, notes};
use crate::tests::shared::{Draft, Ends, Node, Trouble, is_frame};
use disk_model::FaultNotes;
use fc_base::Fault;
use messages::{Frame, Frames};
use mirror_core::Mirror;
use std::alloc::Global;

/// A mirror, and what it sent last.
pub struct Told {
    mirror: Mirror<FaultNotes>,
    sent: Option<Frames>,
}

impl Node for Told {
    type Opening = ();

    fn opening_in(words: &str) -> Option<()> {
        if words == "restart" { Some(()) } else { None }
    }

    fn open(
        alloc: Global,
        _servers: u32,
        _opening: &(),
        notes: FaultNotes,
    ) -> Result<Told, (FaultNotes, Fault)> {
        let mirror = Mirror::restart(alloc, notes)?;
        Ok(Told { mirror, sent: None })
    }

    fn off(self) -> FaultNotes {
        let Told { mirror, sent: _ } = self;
        mirror.off()
    }

    fn ends() -> Ends {
        Ends { from: 8, to: 9 }
    }

    fn put_note(draft: &mut Draft, words: &str) {
        notes::put_note(draft, words);
    }

    fn is_look(word: &str) -> bool {
        looks::is_look(word)
    }

    fn shows(&self, alloc: Global, word: &str, of: &str, words: &str) -> Result<bool, Trouble> {
        looks::shows(alloc, &self.mirror, word, of, words)
    }

    fn is_opened_as(&self, _words: &str) -> bool {
        false
    }

    fn would_save(&self, frame: &Frame) -> Result<bool, Trouble> {
        Ok(self.mirror.would_save(frame))
    }

    fn is_request(_word: &str) -> bool {
        false
    }

    fn ask(&mut self, _words: &str) -> Result<Option<Fault>, Trouble> {
        Err(Trouble::BadRow)
    }

    /// A refusal has to leave what the mirror shows, but where a save failed.
    fn deliver(&mut self, frame: Frame) -> Result<Option<Fault>, Trouble> {
        let before = shown(&self.mirror, &frame);
        match self.mirror.deliver(&frame) {
            Ok(frames) => {
                self.sent = Some(frames);
                Ok(None)
            }
            Err(Fault::SaveFault) => Ok(Some(Fault::SaveFault)),
            Err(fault) if shown(&self.mirror, &frame) == before => Ok(Some(fault)),
            Err(_) => Err(Trouble::Changed),
        }
    }

    /// An answer has frames alone.
    fn is_given(&self, words: &str) -> Result<bool, Trouble> {
        Ok(words.split('+').all(is_frame))
    }

    fn sent(&self) -> Option<&Frames> {
        self.sent.as_ref()
    }
}

/// What a mirror shows: its generation, and whether a frame would make a save.
fn shown(mirror: &Mirror<FaultNotes>, frame: &Frame) -> (u64, bool) {
    (mirror.generation(), mirror.would_save(frame))
}
