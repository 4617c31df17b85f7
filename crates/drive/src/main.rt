//! The program `drive`: it writes a job to a target outside, and checks it after a cut, by way of standard input and
//! output. Whatever starts it opens the target and carries the writes out.
#![tactic(auto)]

ghost use Rattle.targets.specs.Command.{IsRequest};

use fc_base::Fault;
use program_io::{PrintedRefusal, REFUSED, refuse_words};
use std::io;
use std::io::{BufReader, BufWriter, Write};
use std::process::ExitCode;
use std::rt::Env;
use targets::{
    Request, check_job, ledger_job, map_job, read_words, refuse, tour_job, wanted_job, write_job,
};

/// How many bytes of input are read at once.
const READ_AT_ONCE: usize = 262_144;

/// How many bytes of output are written at once: a few orders, so that the first ones can be carried out while the
/// others are filled.
const WRITTEN_AT_ONCE: usize = 32_768;

fn main(rt: HostRuntime) -> ExitCode {
    ExitCode::from(run(&rt))
}

/// Does what the command line asks for, and answers the exit status.
fn run<R: Env + AllocGlobal + Input + Print>(rt: &R) -> u8 {
    let words = words_of(rt).unwrap_or(Vec::new(rt.alloc()));
    let answer = match read_words(rt.alloc(), words.as_slice()) {
        Some(request) => answer_request(rt, request),
        None => refuse_words(&mut io::writer(rt)),
    };
    answer.unwrap_or(REFUSED)
}

/// Answers standard input. What is written goes out in blocks.
fn answer_request<R: AllocGlobal + Input + Print>(rt: &R, request: Request) -> io::Result<u8>
    requires { IsRequest request }
{
    match BufWriter::with_capacity(rt.alloc(), WRITTEN_AT_ONCE, io::writer(rt)) {
        Ok(mut writer) => answer_by(rt, request, &mut writer),
        Err(_) => refuse(&mut io::writer(rt), PrintedRefusal::from(Fault::NoMemory)),
    }
}

/// Answers standard input by this writer.
fn answer_by<R: AllocGlobal + Input, W: Write>(
    rt: &R,
    request: Request,
    writer: &mut W,
) -> io::Result<u8>
    requires { IsRequest request }
{
    let alloc = rt.alloc();
    let Ok(mut reader) = BufReader::with_capacity(alloc, READ_AT_ONCE, rt.reader()) else {
        return refuse(writer, PrintedRefusal::from(Fault::NoMemory));
    };
    match request {
        Request::Write { run, job } => write_job(alloc, run, job, &mut reader, writer),
        Request::Tour { job } => tour_job(alloc, job, &mut reader, writer),
        Request::Check { run, job } => check_job(alloc, run, job, &mut reader, writer),
        Request::Map { key, unit } => map_job(alloc, key, unit, &mut reader, writer),
        Request::Ledger { key, since } => ledger_job(alloc, key, since, &mut reader, writer),
        Request::Wanted { key, since } => wanted_job(alloc, key, since, &mut reader, writer),
    }
}

/// The words of this process's command line. `None` where they aren't UTF-8, or there is no memory
/// for them.
fn words_of<R: Env + AllocGlobal>(rt: &R) -> Option<Vec<String>> {
    let words = std::env::args(rt).ok()?;
    words.collect(rt.alloc()).ok()
}
