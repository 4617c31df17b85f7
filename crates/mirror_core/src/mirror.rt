//! A mirror over its durable note.

ghost use Rattle.std.specs.Prelude.{◌≡◌, List, not, IfOk};
ghost use Rattle.std.specs.Option.{option_copied};
ghost use Rattle.mirror_core.specs.declared.note.MirrorNote.{MirrorNote as Opening};
ghost use Rattle.mirror_core.specs.History.{Entry};
ghost use Rattle.mirror_core.specs.Note.{Says};
ghost use Rattle.mirror_core.specs.Refusals.{IsAdmitted};
ghost use Rattle.mirror_core.specs.Requests.{IsRequest};
ghost use Rattle.mirror_core.specs.Words.{is_on, words_noted, generation, kept_state, shown_entries, would_save};

mod deliver;
mod node_core;
mod save;

use crate::note::{MirrorNote, one_note};
use crate::request::{Request, request_in};
use disk_model::Notes;
use fc_base::{Fault, Key};
use messages::Frame;
use node::Durable;
use std::alloc::Global;
use verify_state::VerifyState;

/// A mirror: its durable note, and what it knows of it. It is down once a save has failed, until it is
/// restarted.
#[derive(Drop)]
pub struct Mirror<N> {
    alloc: Global,
    durable: Durable<N>,
    noted: MirrorNote,
}

impl<N: Notes> Mirror<N> {
    ghost use Rattle.mirror_core.specs.Stands.{note_in, StandsFor, Restarts};

    /// Opens a mirror over its note, and saves nothing. The notes come back where it can't:
    /// [`Fault::LoadFault`], the device failed; [`Fault::BadNote`], the bytes are no note;
    /// [`Fault::NoMemory`].
    pub fn restart(alloc: Global, notes: N) -> Result<Mirror<N>, (N, Fault)>
        ensures { Restarts N.note (N.note notes) result }
    {
        one_note();
        let mut notes = notes;
        let bytes = match notes.load() {
            Ok(bytes) => bytes,
            Err(fault) => return Err((notes, fault)),
        };
        match MirrorNote::decode(alloc, &bytes) {
            Ok(Some(noted)) => Ok(Mirror {
                alloc,
                durable: Durable::new(notes),
                noted,
            }),
            Ok(None) => Err((notes, Fault::BadNote)),
            Err(_) => Err((notes, Fault::NoMemory)),
        }
    }

    /// The notes of a mirror that is taken off.
    pub fn off(self) -> N
        ensures note { N.note result ≡ note_in N.note self }
        ensures says { (opening : Opening) (past : List Entry) →
            StandsFor N.note self opening past →
            Says (N.note result).bytes (words_noted opening past) }
    {
        let Mirror {
            alloc: _,
            durable,
            noted: _,
        } = self;
        durable.into_notes()
    }

    /// The note that it keeps, as it is durable. Behind a failed save it is what that left.
    pub fn notes(&self) -> &N
        ensures note { N.note result.now ≡ note_in N.note self.now }
        ensures says { (opening : Opening) (past : List Entry) →
            StandsFor N.note self.now opening past →
            Says (N.note result.now).bytes (words_noted opening past) }
    {
        self.durable.notes()
    }

    /// Whether it is on: a mirror whose save failed is down until it is restarted.
    pub fn on(&self) -> bool
        ensures { (opening : Opening) (past : List Entry) → StandsFor N.note self.now opening past →
            result ≡ is_on past }
    {
        !self.durable.is_down()
    }

    /// The greatest generation that was asked for, 0 where none was. Where a save has failed, up to it.
    pub fn generation(&self) -> u64
        ensures { (opening : Opening) (past : List Entry) → StandsFor N.note self.now opening past →
            result ≡ generation opening (shown_entries past) }
    {
        self.noted.generation
    }

    /// The kept state of a key. Where a save has failed, up to it.
    pub fn kept(&self, key: Key) -> Option<&VerifyState>
        ensures { (opening : Opening) (past : List Entry) → StandsFor N.note self.now opening past →
            option_copied result ≡ kept_state opening (shown_entries past) key }
    {
        self.noted.kept.get(key)
    }

    /// Whether the delivery of this frame would make a save: it isn't refused, and is a Copy of a key of
    /// which no state is kept, or a Fetch of a generation that is greater than all before.
    pub fn would_save(&self, frame: &Frame) -> bool
        ensures { (opening : Opening) (past : List Entry) → StandsFor N.note self.now opening past →
            result ≡ would_save opening past frame.now }
    {
        match self.admit(frame) {
            Ok(request) => self.noted.lacks(&request),
            Err(_) => false,
        }
    }

    /// What a frame asks for, or why it is refused.
    fn admit(&self, frame: &Frame) -> Result<Request, Fault>
        ensures value { IsAdmitted (not self.now.durable.down) self.now.noted frame.now result }
        ensures range { IfOk result IsRequest }
    {
        if self.durable.is_down() {
            return Err(Fault::Down);
        }
        let Some(request) = request_in(frame) else {
            return Err(Fault::Misdirected);
        };
        match self.noted.fault_of(&request) {
            Some(fault) => Err(fault),
            None => Ok(request),
        }
    }
}
