//! What the commands of a script ask for.

use fc_base::{Generation, JobNo, RunNo, Seq, ServerNo};
use messages::{Act, Node};

/// A command in which a node may save.
#[derive(Clone, Copy, Debug, PartialEq, Eq)]
pub enum Saving {
    /// `begin`: the text below it begins a run.
    Begin,
    /// `verify R`: the text below it checks a run.
    Verify(RunNo),
    /// `deliver I`.
    Deliver(u64),
    /// `restart NODE`.
    Restart(Node),
    /// `renew G`.
    Renew(Generation),
}

/// A command.
#[derive(Clone, Copy, Debug, PartialEq, Eq)]
pub enum Command {
    /// A command in which a node may save.
    Saves(Saving),
    /// The same, whose node loses its power within the save: `cutold`, or `cutnew` where the new bytes
    /// have landed.
    CutShort {
        landed: bool,
        command: Saving,
    },
    /// `trigger R`, `trigger R cut`.
    Trigger {
        run: RunNo,
        act: Act,
    },
    /// `stop R`.
    Stop(RunNo),
    /// `tick`.
    Tick,
    /// `issue S J`.
    Issue {
        server: ServerNo,
        job: JobNo,
    },
    /// `land S J K all`, `land S J K first N`.
    Land {
        server: ServerNo,
        job: JobNo,
        write: Seq,
        mask: u128,
    },
    /// `done S J K`.
    Done {
        server: ServerNo,
        job: JobNo,
        write: Seq,
    },
    /// `fail S J K`.
    Fail {
        server: ServerNo,
        job: JobNo,
        write: Seq,
    },
    /// `rot S J SECTOR BYTE`.
    Rot {
        server: ServerNo,
        job: JobNo,
        sector: u64,
        byte: u8,
    },
    /// `check S J`.
    Check {
        server: ServerNo,
        job: JobNo,
    },
    /// `cut NODE`.
    Cut(Node),
    /// `losenote`.
    LoseNote,
}
