//! The program `fiocut_seen`: it runs a script of events as `fiocut world` does, and shows the bytes of each frame
//! that was ever sent, and what the client's note showed.
#![tactic(auto)]

mod answer;
mod notes;
mod play;
mod shown;

use crate::answer::{answer_script, refuse};
use fc_base::Fault;
use program_io::{REFUSED, refuse_words};
use std::io;
use std::io::BufWriter;
use std::process::ExitCode;
use std::rt::Env;

fn main(rt: HostRuntime) -> ExitCode {
    ExitCode::from(run(&rt))
}

/// Answers the script on standard input, or any words on the command line, and gives back the exit
/// status. All text goes to standard output.
fn run<R: Env + AllocGlobal + Input + Print>(rt: &R) -> u8 {
    let answer = if has_words(rt) {
        refuse_words(&mut io::writer(rt))
    } else {
        answer_input(rt)
    };
    answer.unwrap_or(REFUSED)
}

/// Whether anything stands behind the program's own name on the command line. It is taken so, too, where
/// the words aren't UTF-8, or there is no memory for them.
fn has_words<R: Env + AllocGlobal>(rt: &R) -> bool {
    match std::env::args(rt) {
        Ok(words) => words.len() > 1,
        Err(_) => true,
    }
}

/// Answers the script on standard input. Its output goes out in blocks, as they are full.
fn answer_input<R: AllocGlobal + Input + Print>(rt: &R) -> io::Result<u8> {
    match BufWriter::new(rt.alloc(), io::writer(rt)) {
        Ok(mut blocks) => answer_script(rt.alloc(), &mut rt.reader(), &mut blocks),
        Err(_) => refuse(&mut io::writer(rt), Fault::NoMemory),
    }
}
