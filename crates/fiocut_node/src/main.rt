//! The program `fiocut_node`: a server, the client or a mirror as a filter over standard input and output. Whatever
//! starts it makes its saves durable, carries its orders out, and carries its frames to the other nodes.
#![tactic(auto)]

ghost use Rattle.std.specs.Prelude.{IfOk, IfSome};
ghost use Rattle.filters.specs.Command.{IsRequest};

use filters::{Request, read_words, run_client, run_mirror, run_server, want_memory};
use program_io::{REFUSED, refuse_words};
use std::alloc::AllocError;
use std::io;
use std::io::{BufReader, BufWriter, Write};
use std::process::ExitCode;
use std::rt::Env;

/// How many bytes of input are read, and of output written, at once.
const CAPACITY: usize = 262_144;

fn main(rt: HostRuntime) -> ExitCode {
    ExitCode::from(run(&rt))
}

/// Does what the command line asks for, and answers the exit status.
fn run<R: Env + AllocGlobal + Input + Print>(rt: &R) -> u8 {
    let answer = match request_of(rt) {
        Ok(Some(request)) => answer_request(rt, request),
        Ok(None) => refuse_words(&mut io::writer(rt)),
        Err(_) => want_memory(&mut io::writer(rt)),
    };
    answer.unwrap_or(REFUSED)
}

/// What the command line asks for: `None` is a bad command. An error is that memory is wanting.
fn request_of<R: Env + AllocGlobal>(rt: &R) -> Result<Option<Request>, AllocError>
    ensures { IfOk result (λ read. IfSome read IsRequest) }
{
    match words_of(rt)? {
        Some(words) => read_words(rt.alloc(), words.as_slice()),
        None => Ok(None),
    }
}

/// Answers standard input. What is written goes out in blocks.
fn answer_request<R: AllocGlobal + Input + Print>(rt: &R, request: Request) -> io::Result<u8>
    requires { IsRequest request }
{
    match BufWriter::with_capacity(rt.alloc(), CAPACITY, io::writer(rt)) {
        Ok(mut writer) => answer_by(rt, request, &mut writer),
        Err(_) => want_memory(&mut io::writer(rt)),
    }
}

/// Answers standard input by this writer.
fn answer_by<R: AllocGlobal + Input, W: Write>(
    rt: &R,
    request: Request,
    writer: &mut W,
) -> io::Result<u8>
    requires { IsRequest request }
{
    let alloc = rt.alloc();
    let Ok(mut reader) = BufReader::with_capacity(alloc, CAPACITY, rt.reader()) else {
        return want_memory(writer);
    };
    match request {
        Request::Server(me) => run_server(alloc, me, &mut reader, writer),
        Request::Client(servers, beginning) => {
            run_client(alloc, servers, beginning, &mut reader, writer)
        }
        Request::Mirror => run_mirror(alloc, &mut reader, writer),
    }
}

/// The words of this process's command line: `None` where they aren't UTF-8. An error is that memory is wanting.
fn words_of<R: Env + AllocGlobal>(rt: &R) -> Result<Option<Vec<String>>, AllocError> {
    match std::env::args(rt) {
        Ok(words) => Ok(Some(words.collect(rt.alloc())?)),
        Err(error) if error.kind() == io::ErrorKind::OutOfMemory => Err(AllocError),
        Err(_) => Ok(None),
    }
}
