//! A client that stories are told to.

use super::calls::{Given, ask, asked_in, number_in, put_text_of, shown, would_save};
use super::opening::{Opening, opened, opening_in};
use super::{looks, written};
use crate::tests::shared::{Draft, Ends, Node, Trouble, first_word};
use client_core::{Client, Input};
use disk_model::FaultNotes;
use fc_base::Fault;
use messages::{Frame, Frames};
use std::alloc::Global;

/// A client, and what it gave last.
pub struct Told {
    pub client: Client<FaultNotes>,
    given: Option<Given>,
    /// The text that is handed over.
    text: Draft,
}

impl Told {
    /// Keeps what the client gave: why it refused, if it did. That has to leave what it shows.
    fn keep(
        &mut self,
        before: (u64, u64, usize, bool),
        given: Result<Given, Fault>,
    ) -> Result<Option<Fault>, Trouble> {
        match given {
            Ok(given) => {
                self.given = Some(given);
                Ok(None)
            }
            Err(fault) if shown(&self.client) == before => Ok(Some(fault)),
            Err(_) => Err(Trouble::Changed),
        }
    }
}

impl Node for Told {
    type Opening = Opening;

    fn opening_in(words: &str) -> Option<Opening> {
        opening_in(words)
    }

    fn open(
        alloc: Global,
        servers: u32,
        opening: &Opening,
        notes: FaultNotes,
    ) -> Result<Told, (FaultNotes, Fault)> {
        let client = opened(alloc, servers, notes, opening)?;
        Ok(Told {
            client,
            given: None,
            text: Draft::new(alloc),
        })
    }

    fn off(self) -> FaultNotes {
        let Told {
            client,
            given: _,
            text: _,
        } = self;
        client.off()
    }

    fn ends() -> Ends {
        Ends { from: 0, to: 8 }
    }

    fn put_note(draft: &mut Draft, words: &str) {
        written::put_note(draft, words);
    }

    fn is_look(word: &str) -> bool {
        looks::is_look(word)
    }

    fn shows(&self, alloc: Global, word: &str, of: &str, words: &str) -> Result<bool, Trouble> {
        looks::shows(alloc, &self.client, word, of, words)
    }

    fn is_opened_as(&self, _words: &str) -> bool {
        false
    }

    fn would_save(&self, frame: &Frame) -> Result<bool, Trouble> {
        Ok(would_save(&self.client, frame)?)
    }

    fn is_request(word: &str) -> bool {
        matches!(word, "begin" | "verify" | "trigger" | "stop" | "tick")
    }

    fn ask(&mut self, words: &str) -> Result<Option<Fault>, Trouble> {
        let (word, rest) = first_word(words);
        put_text_of(&mut self.text, words)?;
        let asked = asked_in(word, rest, self.text.bytes()).ok_or(Trouble::BadRow)?;
        let before = shown(&self.client);
        let given = ask(&mut self.client, asked);
        self.keep(before, given)
    }

    fn deliver(&mut self, frame: Frame) -> Result<Option<Fault>, Trouble> {
        let before = shown(&self.client);
        let given = ask(&mut self.client, Input::Deliver(frame));
        self.keep(before, given)
    }

    /// An answer gives a number, where the client gave one.
    fn is_given(&self, words: &str) -> Result<bool, Trouble> {
        match &self.given {
            Some(given) => Ok(given.number == number_in(words)?),
            None => Ok(false),
        }
    }

    fn sent(&self) -> Option<&Frames> {
        self.given.as_ref().map(|given| &given.frames)
    }
}
