//! The program: it prints the jobs of a job file of fio, runs a script of events, or has servers and
//! workers run two job files live.
#![tactic(auto)]

ghost use Rattle.commands.specs.Command.{IsFleetSize};

use commands::{
    FileTrigger, FleetSize, Request, read_words, refuse_script, run_in_blocks, run_jobs, run_live,
};
use fc_base::Fault;
use program_io::{REFUSED, refuse_words};
use std::fs::Files;
use std::io;
use std::io::BufWriter;
use std::process::ExitCode;
use std::rt::Env;
use std::sync::Wait;
use std::thread::Threads;

fn main(rt: HostRuntime) -> ExitCode {
    ExitCode::from(run(&rt))
}

/// Does what the command line asks for, and answers the exit status. All text goes to standard
/// output.
fn run<R: Env + AllocGlobal + Files + Input + Print + Threads + Wait + Sync>(rt: &R) -> u8 {
    let words = words_of(rt).unwrap_or(Vec::new(rt.alloc()));
    let request = read_words(rt.alloc(), words.as_slice());
    let mut writer = io::writer(rt);
    let answer = match request {
        Some(Request::Jobs) => run_jobs(rt.alloc(), &mut rt.reader(), &mut writer),
        Some(Request::World) => answer_script(rt),
        Some(Request::Live { size, path }) => answer_texts(rt, size, path),
        None => refuse_words(&mut writer),
    };
    answer.unwrap_or(REFUSED)
}

/// Answers the two texts on standard input, with a file at this path as the trigger.
fn answer_texts<R: AllocGlobal + Files + Input + Print + Threads + Wait + Sync>(
    rt: &R,
    size: FleetSize,
    path: &str,
) -> io::Result<u8>
    requires { IsFleetSize size }
{
    let mut trigger = FileTrigger { files: rt, path };
    run_live(
        rt,
        rt.alloc(),
        size,
        &mut trigger,
        &mut rt.reader(),
        &mut io::writer(rt),
    )
}

/// Answers the script on standard input. Its output goes out in blocks, as they are full.
fn answer_script<R: AllocGlobal + Input + Print>(rt: &R) -> io::Result<u8> {
    match BufWriter::new(rt.alloc(), io::writer(rt)) {
        Ok(blocks) => {
            let (status, _) = run_in_blocks(rt.alloc(), &mut rt.reader(), blocks)?;
            Ok(status)
        }
        Err(_) => refuse_script(&mut io::writer(rt), Fault::NoMemory),
    }
}

/// The words of this process's command line. `None` where they aren't UTF-8, or there is no memory
/// for them.
fn words_of<R: Env + AllocGlobal>(rt: &R) -> Option<Vec<String>> {
    let words = std::env::args(rt).ok()?;
    words.collect(rt.alloc()).ok()
}
