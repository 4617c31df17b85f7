//! A server that stories are told to.

use super::calls::{asked_in, is_told};
use super::looks;
use super::notes::{NoteNumbers, put_noted};
use crate::tests::shared::{Draft, Ends, Node, Trouble, first_word, next_u64};
use disk_model::FaultNotes;
use fc_base::{Attempt, Fault, RunNo, ServerNo};
use messages::{Frame, Frames};
use server_core::{Input, Outs, Server, Stage};
use std::alloc::Global;

/// A server, and what it handed out last.
pub struct Told {
    pub server: Server<FaultNotes>,
    outs: Option<Outs>,
}

impl Told {
    /// Hands what comes to the server: why it refuses, if it does. That has to leave what it shows.
    fn hand(&mut self, input: Input<Frame>) -> Result<Option<Fault>, Trouble> {
        let before = self.server.status();
        match self.server.step(input) {
            Ok(outs) => {
                self.outs = Some(outs);
                Ok(None)
            }
            Err(fault) if self.server.status() == before => Ok(Some(fault)),
            Err(_) => Err(Trouble::Changed),
        }
    }
}

impl Node for Told {
    type Opening = ();

    fn opening_in(words: &str) -> Option<()> {
        if words == "restart" { Some(()) } else { None }
    }

    fn open(
        alloc: Global,
        _servers: u32,
        _opening: &(),
        notes: FaultNotes,
    ) -> Result<Told, (FaultNotes, Fault)> {
        let server = Server::restart(alloc, ServerNo(0), notes)?;
        Ok(Told { server, outs: None })
    }

    fn off(self) -> FaultNotes {
        let Told { server, outs: _ } = self;
        server.off()
    }

    fn ends() -> Ends {
        Ends { from: 8, to: 0 }
    }

    /// Puts a note of a boot and a last run, or of bytes in hexadecimal; none for `-`.
    fn put_note(draft: &mut Draft, words: &str) {
        match words.split_once(' ') {
            Some((boot, last_run)) => put_numbers(draft, boot, last_run),
            None if words == "-" => {}
            None => draft.put_hex(words),
        }
    }

    fn is_look(word: &str) -> bool {
        looks::is_look(word)
    }

    fn shows(&self, alloc: Global, word: &str, of: &str, words: &str) -> Result<bool, Trouble> {
        looks::shows(alloc, &self.server, word, of, words)
    }

    /// The words are the boot and the last run, and nothing else is there.
    fn is_opened_as(&self, words: &str) -> bool {
        let status = self.server.status();
        let mut words = words.split_whitespace();
        next_u64(&mut words) == Some(status.boot)
            && next_u64(&mut words) == Some(status.last_run.0)
            && status.stage == Stage::Idle
            && (status.staged, status.run, status.attempt) == (RunNo(0), RunNo(0), Attempt(0))
    }

    fn would_save(&self, frame: &Frame) -> Result<bool, Trouble> {
        Ok(self.server.would_save(frame))
    }

    fn is_request(word: &str) -> bool {
        matches!(word, "issue" | "done" | "fail" | "check")
    }

    /// Requests for writes and their ends take no memory.
    fn ask(&mut self, words: &str) -> Result<Option<Fault>, Trouble> {
        let (word, rest) = first_word(words);
        let input = asked_in(word, rest).ok_or(Trouble::BadRow)?;
        match self.hand(input)? {
            Some(Fault::NoMemory) if word != "check" => Err(Trouble::NoMemory),
            fault => Ok(fault),
        }
    }

    fn deliver(&mut self, frame: Frame) -> Result<Option<Fault>, Trouble> {
        self.hand(Input::Deliver(frame))
    }

    fn is_given(&self, words: &str) -> Result<bool, Trouble> {
        match &self.outs {
            Some(outs) => is_told(outs, words),
            None => Ok(false),
        }
    }

    fn sent(&self) -> Option<&Frames> {
        self.outs.as_ref().map(|outs| &outs.frames)
    }
}

fn put_numbers(draft: &mut Draft, boot: &str, last_run: &str) {
    match (boot.parse::<u64>(), last_run.parse::<u64>()) {
        (Ok(boot), Ok(last_run)) => put_noted(draft, NoteNumbers { boot, last_run }),
        _ => draft.give_up(),
    }
}
