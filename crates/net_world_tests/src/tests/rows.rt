//! The rows of stories: the script that they are, what it prints, and the events that they ask for.

use super::stories::Story;
use super::stories::copies::BEGUN;
use super::trouble::Trouble;
use net_script::{ScriptLine, event_of, line_of};
use net_world::{Config, WorldEvent};
use std::alloc::{AllocError, Global};

/// What a row says.
#[derive(Clone, Copy)]
pub enum Row<'a> {
    /// A command happens, and is answered so.
    Happens { command: &'a str, answer: &'a str },
    /// The world shows this.
    Shows { look: &'a str, wanted: &'a str },
    /// The world is made, or nothing happens.
    Rests,
}

pub fn row_in(row: &str) -> Row<'_> {
    let Some((command, answer)) = row.split_once("=>") else {
        return Row::Rests;
    };
    let (command, answer) = (command.trim(), answer.trim());
    match first_word(command) {
        "servers" => Row::Rests,
        "frame" | "frames" | "status" | "saved" => Row::Shows {
            look: command,
            wanted: answer,
        },
        _ => Row::Happens { command, answer },
    }
}

fn first_word(command: &str) -> &str {
    command.split_whitespace().next().unwrap_or("")
}

/// Whether a script can say what stands in front of `=>`.
fn is_said(command: &str) -> bool {
    !matches!(
        first_word(command),
        "frame" | "frames" | "status" | "saved" | "barred"
    )
}

/// A script, and what it has to print.
#[derive(Drop)]
pub struct Wanted {
    pub script: String,
    pub printed: String,
}

/// The script of a story. Where memory runs out, it is made once more.
pub fn wanted_by(alloc: Global, story: &Story) -> Result<Wanted, AllocError> {
    match written_once(alloc, story) {
        Ok(wanted) => Ok(wanted),
        Err(_) => written_once(alloc, story),
    }
}

fn written_once(alloc: Global, story: &Story) -> Result<Wanted, AllocError> {
    let mut wanted = Wanted {
        script: String::new(alloc),
        printed: String::new(alloc),
    };
    if story.is_begun {
        put_rows(&mut wanted, BEGUN)?;
    }
    put_rows(&mut wanted, story.rows)?;
    Ok(wanted)
}

/// Puts what these rows ask for and have printed behind what is there.
fn put_rows(wanted: &mut Wanted, rows: &str) -> Result<(), AllocError> {
    for row in rows.lines() {
        match row.split_once("=>") {
            Some((command, printed)) => {
                if is_said(command) {
                    put_lines(&mut wanted.script, command, '/')?;
                    put_lines(&mut wanted.printed, printed, '+')?;
                }
            }
            None => put_lines(&mut wanted.script, row, '/')?,
        }
    }
    Ok(())
}

/// Puts the parts of a row behind one another, each as a line.
fn put_lines(text: &mut String, row: &str, separator: char) -> Result<(), AllocError> {
    for line in row.split(separator) {
        put_line(text, line.trim())?;
    }
    Ok(())
}

/// Puts a line, of which `#x*3` is `#xxx`.
fn put_line(text: &mut String, line: &str) -> Result<(), AllocError> {
    match line.strip_prefix("#x*") {
        Some(times) => {
            text.push_str("#")?;
            for _ in 0..times.parse::<u32>().unwrap_or(0) {
                text.push_str("x")?;
            }
        }
        None => text.push_str(line)?,
    }
    text.push_str("\n")
}

/// The world that the first row of a story asks for.
pub fn config_in(rows: &str) -> Option<Config> {
    let row = rows.lines().next()?;
    let (command, _) = row.split_once("=>")?;
    match line_of(command.as_bytes()) {
        ScriptLine::Servers(config) => Some(config),
        _ => None,
    }
}

/// The event that a command asks for.
pub fn event_in(alloc: Global, command: &str) -> Result<WorldEvent, Trouble> {
    match command.strip_prefix("barred ") {
        Some(command) => barred(alloc, command),
        None => asked(alloc, command),
    }
}

/// The event of a command of a script, with the text that stands behind it.
fn asked(alloc: Global, command: &str) -> Result<WorldEvent, Trouble> {
    let (line, below) = match command.split_once('/') {
        Some((line, below)) => (line, below),
        None => (command, "."),
    };
    let text = text_in(alloc, below)?;
    match line_of(line.as_bytes()) {
        ScriptLine::Asks(command) => Ok(event_of(alloc, &command, text.as_bytes())?),
        _ => Err(Trouble::BadRow),
    }
}

/// The text of lines that end with `.`.
fn text_in(alloc: Global, below: &str) -> Result<String, AllocError> {
    let mut text = String::new(alloc);
    for line in below.split('/') {
        let line = line.trim();
        if line == "." {
            break;
        }
        put_line(&mut text, line)?;
    }
    Ok(text)
}

/// A cut within the save of a command that makes none: no line of a script asks for it.
fn barred(alloc: Global, command: &str) -> Result<WorldEvent, Trouble> {
    let Some((word, command)) = command.split_once(' ') else {
        return Err(Trouble::BadRow);
    };
    let landed = word == "cutnew";
    match asked(alloc, command) {
        Ok(WorldEvent::Plain(event)) => Ok(WorldEvent::CutIn { landed, event }),
        Ok(WorldEvent::CutIn { .. }) => Err(Trouble::BadRow),
        Err(trouble) => Err(trouble),
    }
}
