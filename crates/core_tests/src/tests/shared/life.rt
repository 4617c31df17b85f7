//! A node that is taken off, opened and handed what comes to it.

mod rows;

use super::draft::Draft;
use super::frames::frame_in;
use super::notes::{have_bytes, save};
use super::spelling::Spelling;
use super::story_node::Node;
use super::trouble::Trouble;
use super::words::first_word;
use disk_model::FaultNotes;
use fc_base::Fault;
use messages::Frame;
pub use rows::Unlike;
use std::alloc::Global;

/// A node, or the notes of one that is off. It has to be ended, so that nobody has to show how a core is
/// dropped.
pub struct Life<C> {
    alloc: Global,
    servers: u32,
    notes: Option<FaultNotes>,
    pub node: Option<C>,
    spelling: Spelling,
    /// The bytes that are wanted of the notes.
    wanted: Draft,
    /// How often memory ran out.
    wants: u32,
}

impl<C: Node> Life<C> {
    /// A node that is off, among so many servers, with these notes.
    pub fn new(alloc: Global, servers: u32, notes: FaultNotes) -> Life<C> {
        Life {
            alloc,
            servers,
            notes: Some(notes),
            node: None,
            spelling: Spelling::new(alloc),
            wanted: Draft::new(alloc),
            wants: 0,
        }
    }

    /// Writes a note, once more where memory ran out.
    fn write_note(&mut self, words: &str) -> Result<(), Trouble> {
        match self.write_note_once(words) {
            Err(Trouble::NoMemory) => {
                self.wants = self.wants.saturating_add(1);
                self.write_note_once(words)
            }
            answer => answer,
        }
    }

    fn write_note_once(&mut self, words: &str) -> Result<(), Trouble> {
        self.put_wanted(words)?;
        match &mut self.notes {
            Some(notes) => save(notes, self.wanted.bytes()),
            None => Err(Trouble::Off),
        }
    }

    fn put_wanted(&mut self, words: &str) -> Result<(), Trouble> {
        self.wanted.clear();
        C::put_note(&mut self.wanted, words);
        self.wanted.told()
    }

    /// Takes the node off, where it is on.
    pub fn take_off(&mut self) {
        match self.node.take() {
            Some(node) => self.notes = Some(node.off()),
            None => {}
        }
    }

    fn put_on(&mut self, node: C) {
        match self.node.replace(node) {
            Some(old) => self.notes = Some(old.off()),
            None => {}
        }
    }

    /// Takes the node off for good: how often memory ran out.
    pub fn end(self) -> u32 {
        let Life {
            alloc: _,
            servers: _,
            notes: _,
            node,
            spelling: _,
            wanted: _,
            wants,
        } = self;
        match node {
            Some(node) => {
                node.off();
            }
            None => {}
        }
        wants
    }

    /// Whether the notes say this, once the node is off. Where memory ran out, they are asked once more.
    pub fn still_says(&mut self, words: &str) -> Result<bool, Trouble> {
        self.take_off();
        match self.is_noted(words) {
            Err(Trouble::NoMemory) => self.is_noted(words),
            answer => answer,
        }
    }

    fn is_noted(&mut self, words: &str) -> Result<bool, Trouble> {
        self.put_wanted(words)?;
        match &mut self.notes {
            Some(notes) => have_bytes(notes, self.wanted.bytes()),
            None => Err(Trouble::Off),
        }
    }

    /// Whether the notes have these bytes, once the node is off.
    pub fn still_has(&mut self, bytes: &[u8]) -> Result<bool, Trouble> {
        self.take_off();
        match &mut self.notes {
            Some(notes) => have_bytes(notes, bytes),
            None => Err(Trouble::Off),
        }
    }

    /// Opens a node that is off, once more where memory ran out: 0, or the fault's number.
    pub fn open(&mut self, opening: &C::Opening) -> Result<u8, Trouble> {
        let mut fault = self.open_once(opening)?;
        if fault == Some(Fault::NoMemory) {
            self.wants = self.wants.saturating_add(1);
            fault = self.open_once(opening)?;
        }
        Ok(fault.map(Fault::number).unwrap_or(0))
    }

    /// Opens a node that is off: why it isn't opened, if it isn't.
    fn open_once(&mut self, opening: &C::Opening) -> Result<Option<Fault>, Trouble> {
        let Some(notes) = self.notes.take() else {
            return Err(Trouble::Off);
        };
        match C::open(self.alloc, self.servers, opening, notes) {
            Ok(node) => {
                self.put_on(node);
                Ok(None)
            }
            Err((notes, fault)) => {
                self.notes = Some(notes);
                Ok(Some(fault))
            }
        }
    }

    /// Takes an event: why the node refuses it, if it does. Where memory ran out, it comes once more.
    pub fn take(&mut self, event: &str) -> Result<Option<Fault>, Trouble> {
        match self.take_once(event)? {
            Some(Fault::NoMemory) => {
                self.wants = self.wants.saturating_add(1);
                self.take_once(event)
            }
            fault => Ok(fault),
        }
    }

    fn take_once(&mut self, event: &str) -> Result<Option<Fault>, Trouble> {
        let (word, _) = first_word(event);
        if !C::is_request(word) {
            return self.deliver(event);
        }
        match &mut self.node {
            Some(node) => node.ask(event),
            None => Err(Trouble::Off),
        }
    }

    fn deliver(&mut self, event: &str) -> Result<Option<Fault>, Trouble> {
        match frame_in(self.alloc, &mut self.spelling, C::ends(), event) {
            Ok(frame) => self.hand(frame),
            Err(trouble) => Err(trouble),
        }
    }

    fn hand(&mut self, frame: Frame) -> Result<Option<Fault>, Trouble> {
        match &mut self.node {
            Some(node) => node.deliver(frame),
            None => Err(Trouble::Off),
        }
    }
}
