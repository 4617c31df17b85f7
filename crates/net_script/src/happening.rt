//! The event that a command makes happen.

ghost use Rattle.std.specs.Prelude.{◌≡◌, IfOk, replicate};
ghost use Rattle.net_world.specs.Events.{plain_happening, happening};
ghost use Rattle.net_script.specs.Commands.{saving_happens, happens};

use crate::command::{Command, Saving};
use net_world::{PlainEvent, WorldEvent};
use std::alloc::{AllocError, Global};

/// How many bytes a sector has.
const SECTOR: usize = 512;

/// The event of a command, with the text below it: what a world applies, where no script is run. It wants memory
/// for a text and for a sector.
pub fn event_of(alloc: Global, command: &Command, text: &[u8]) -> Result<WorldEvent, AllocError>
    ensures { IfOk result (λ event. happening event ≡ happens command.now text.now) }
{
    let event = match *command {
        Command::Saves(command) => saving_event(alloc, &command, text)?,
        Command::CutShort { landed, command } => {
            let event = saving_event(alloc, &command, text)?;
            return Ok(WorldEvent::CutIn { landed, event });
        }
        Command::Trigger { run, act } => PlainEvent::Trigger { run, act },
        Command::Stop(run) => PlainEvent::StopRun { run },
        Command::Tick => PlainEvent::Tick,
        Command::Issue { server, job } => PlainEvent::Issue { server, job },
        Command::Land {
            server,
            job,
            write,
            mask,
        } => PlainEvent::Land {
            server,
            job,
            write,
            mask,
        },
        Command::Done { server, job, write } => PlainEvent::Done { server, job, write },
        Command::Fail { server, job, write } => PlainEvent::Fail { server, job, write },
        Command::Rot {
            server,
            job,
            sector,
            byte,
        } => PlainEvent::Rot {
            server,
            job,
            sector,
            bytes: rotten(alloc, byte)?,
        },
        Command::Check { server, job } => PlainEvent::Check { server, job },
        Command::Cut(node) => PlainEvent::Cut { node },
        Command::LoseNote => PlainEvent::LoseNote,
    };
    Ok(WorldEvent::Plain(event))
}

/// The event of a command in which a node may save.
fn saving_event(alloc: Global, command: &Saving, text: &[u8]) -> Result<PlainEvent, AllocError>
    ensures { IfOk result (λ event. plain_happening event ≡ saving_happens command.now text.now) }
{
    Ok(match *command {
        Saving::Begin => PlainEvent::Begin {
            text: text.to_vec(alloc)?,
        },
        Saving::Verify(run) => PlainEvent::Verify {
            run,
            text: text.to_vec(alloc)?,
        },
        Saving::Deliver(frame) => PlainEvent::Deliver { frame },
        Saving::Restart(node) => PlainEvent::Restart { node },
        Saving::Renew(generation) => PlainEvent::Renew { generation },
    })
}

/// A sector that holds this byte over and over.
fn rotten(alloc: Global, byte: u8) -> Result<Box<[u8; SECTOR]>, AllocError>
    ensures { IfOk result (λ sector. sector.value ≡ replicate 512 byte) }
{
    match Box::new(alloc, [byte; SECTOR]) {
        Ok(sector) => Ok(sector),
        Err(_) => Err(AllocError),
    }
}
