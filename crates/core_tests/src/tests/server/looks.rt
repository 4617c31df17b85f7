//! What a server shows, and what rows say of it.

use super::words::ticket_in;
use crate::tests::shared::{Trouble, first_word, is_state};
use disk_model::FaultNotes;
use engine::Ticket;
use fc_base::{JobNo, Seq};
use job_file::Job;
use server_core::{Progress, Server, Stage, Status};
use std::alloc::Global;

/// Whether a row with this word asks for what the server shows.
pub fn is_look(word: &str) -> bool {
    matches!(
        word,
        "on" | "status" | "taken" | "run_job" | "open_write" | "check_job" | "check_state"
    )
}

/// Whether the server shows what the words say: of a job, its number stands in front, and of a write
/// its own behind that.
pub fn shows(
    alloc: Global,
    server: &Server<FaultNotes>,
    word: &str,
    job: &str,
    words: &str,
) -> Result<bool, Trouble> {
    let (job, write) = first_word(job);
    let job = JobNo(job.parse::<u32>().unwrap_or(0));
    match word {
        "on" => Ok(words == if server.on() { "1" } else { "0" }),
        "status" => Ok(is_status(server.status(), words)),
        "taken" => is_state(alloc, server.taken(job), words),
        "run_job" => Ok(is_job(server.run_job(job), words)),
        "open_write" => {
            let write = Seq(write.parse::<u64>().unwrap_or(0));
            Ok(is_ticket(server.open_write(job, write), words))
        }
        "check_job" => Ok(is_job(server.check_job(job), words)),
        "check_state" => is_progress(alloc, server.check_progress(job), words),
        _ => Err(Trouble::BadRow),
    }
}
/// The numbers and the stage are those of the words: boot, last run, staged run, present run, stage
/// and attempt.
fn is_status(status: Status, words: &str) -> bool {
    let mut words = words.split_whitespace();
    let numbers = [
        status.boot,
        status.last_run.0,
        status.staged.0,
        status.run.0,
    ];
    for number in numbers {
        if words.next().and_then(|word| word.parse::<u64>().ok()) != Some(number) {
            return false;
        }
    }
    words.next() == Some(stage_name(status.stage))
        && words.next().and_then(|word| word.parse::<u64>().ok()) == Some(status.attempt.0)
}

fn stage_name(stage: Stage) -> &'static str {
    match stage {
        Stage::Idle => "idle",
        Stage::Writing => "writing",
        Stage::Taken => "taken",
        Stage::Stopped => "stopped",
    }
}

/// The ticket has these numbers; `none` says that there is no ticket.
fn is_ticket(ticket: Option<Ticket>, words: &str) -> bool {
    match ticket {
        Some(_) => ticket == ticket_in(&mut words.split_whitespace()),
        None => words == "none",
    }
}

/// The job has this name; `none` says that there is no job.
fn is_job(job: Option<&Job>, name: &str) -> bool {
    match job {
        Some(job) => job.name.as_str() == name,
        None => name == "none",
    }
}

/// How far the check of a job is: the words are `with` and its state, `refused` and the number of the
/// misfit, or one of `wanting`, `full`, `done` and `none`.
fn is_progress(alloc: Global, progress: Option<&Progress>, words: &str) -> Result<bool, Trouble> {
    let (word, rest) = first_word(words);
    match progress {
        None => Ok(word == "none"),
        Some(Progress::Wanting) => Ok(word == "wanting"),
        Some(Progress::Full) => Ok(word == "full"),
        Some(Progress::Done(_)) => Ok(word == "done"),
        Some(Progress::Refused(fault)) => {
            Ok(word == "refused" && rest.parse::<u8>().ok() == Some(fault.number()))
        }
        Some(Progress::With(state)) => Ok(word == "with" && is_state(alloc, Some(state), rest)?),
    }
}
