//! The rows of a story that a node is taken through.

use super::Life;
use crate::tests::shared::frames::{are_sent, frame_in};
use crate::tests::shared::spelling::Spelling;
use crate::tests::shared::story_node::Node;
use crate::tests::shared::trouble::Trouble;
use crate::tests::shared::words::{event_and_answer, first_word};
use fc_base::Fault;
use messages::Frame;

/// A line of a story, from 0, that isn't answered as it says, and what trouble there was, if any.
pub type Unlike = (usize, Option<Trouble>);

impl<C: Node> Life<C> {
    /// Goes through the rows of a story, up to the first that isn't answered so.
    pub fn first_unlike(&mut self, story: &str) -> Option<Unlike> {
        for (line, row) in story.lines().enumerate() {
            let unlike = self.unlike_at(line, row);
            if unlike.is_some() {
                return unlike;
            }
        }
        None
    }

    fn unlike_at(&mut self, line: usize, row: &str) -> Option<Unlike> {
        if row.trim().is_empty() {
            return None;
        }
        match self.holds(row) {
            Ok(true) => None,
            Ok(false) => Some((line, None)),
            Err(trouble) => Some((line, Some(trouble))),
        }
    }

    /// Takes a row, and tells whether it is answered so.
    pub fn holds(&mut self, row: &str) -> Result<bool, Trouble> {
        let Some((event, answer)) = event_and_answer(row) else {
            return Err(Trouble::BadRow);
        };
        match C::opening_in(event) {
            Some(opening) => self.opens(&opening, answer),
            None => self.answers(event, answer),
        }
    }

    fn answers(&mut self, event: &str, answer: &str) -> Result<bool, Trouble> {
        let (word, rest) = first_word(event);
        match word {
            "note" => self.changes_note(rest, answer),
            "would_save" => self.would_save(rest, answer),
            _ if C::is_look(word) => self.is_shown(word, rest, answer),
            _ => self.is_answered(event, answer),
        }
    }

    /// Whether the node says just this of the delivery of a frame.
    fn would_save(&mut self, event: &str, answer: &str) -> Result<bool, Trouble> {
        match frame_in(self.alloc, &mut self.spelling, C::ends(), event) {
            Ok(frame) => self.is_told_of(&frame, answer),
            Err(trouble) => Err(trouble),
        }
    }

    fn is_told_of(&self, frame: &Frame, answer: &str) -> Result<bool, Trouble> {
        match &self.node {
            Some(node) => Ok(answer == if node.would_save(frame)? { "1" } else { "0" }),
            None => Err(Trouble::Off),
        }
    }

    /// Whether the node shows what the words say. Where memory ran out, it is asked once more.
    fn is_shown(&self, word: &str, of: &str, words: &str) -> Result<bool, Trouble> {
        match self.is_shown_once(word, of, words) {
            Err(Trouble::NoMemory) => self.is_shown_once(word, of, words),
            answer => answer,
        }
    }

    fn is_shown_once(&self, word: &str, of: &str, words: &str) -> Result<bool, Trouble> {
        match &self.node {
            Some(node) => node.shows(self.alloc, word, of, words),
            None => Err(Trouble::Off),
        }
    }

    /// Takes the node off, and opens it so: whether its note had the bytes of the answer, and it is
    /// opened, or refused by the number behind `/`.
    fn opens(&mut self, opening: &C::Opening, answer: &str) -> Result<bool, Trouble> {
        let (note, fault) = match answer.split_once('/') {
            Some((note, fault)) => (note, fault.trim().parse::<u8>().unwrap_or(0)),
            None => (answer, 0),
        };
        let said = self.still_says(note.trim())?;
        Ok(said && self.open(opening)? == fault)
    }

    /// Takes the node off, and writes its note anew: whether it had the bytes of the answer.
    fn changes_note(&mut self, words: &str, answer: &str) -> Result<bool, Trouble> {
        let said = self.still_says(answer)?;
        self.write_note(words)?;
        Ok(said)
    }

    fn is_answered(&mut self, event: &str, answer: &str) -> Result<bool, Trouble> {
        let fault = self.take(event)?;
        self.is_said(fault, answer)
    }

    /// Whether the words say what was answered: a fault's number, or what is given, joined by `+`.
    fn is_said(&mut self, fault: Option<Fault>, words: &str) -> Result<bool, Trouble> {
        match (fault, words.parse::<u8>()) {
            (None, Err(_)) => self.is_given(words),
            (Some(fault), Ok(number)) => Ok(fault.number() == number),
            _ => Ok(false),
        }
    }

    fn is_given(&mut self, words: &str) -> Result<bool, Trouble> {
        match &self.node {
            Some(node) => is_given_by(node, &mut self.spelling, words),
            None => Err(Trouble::Off),
        }
    }
}

/// Whether the words say what a node gave last.
fn is_given_by<C: Node>(node: &C, spelling: &mut Spelling, words: &str) -> Result<bool, Trouble> {
    if !node.is_given(words)? {
        return Ok(false);
    }
    match node.sent() {
        Some(frames) => are_sent(spelling, C::ends().back(), frames, words),
        None => Ok(false),
    }
}
