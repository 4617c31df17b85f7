//! The reports that a client keeps.

ghost use Rattle.std.specs.Prelude.{◌≡◌, [], OnOk, OnErr};
ghost use Rattle.client_core.specs.Reports.{with_report};

use crate::received::Received;
use fc_base::{Attempt, JobNo, ServerNo};
use std::alloc::{AllocError, Global};
use std::collections::HashSet;
use std::marker::Model;

/// What names one report of a life.
#[derive(Clone, Copy, PartialEq, Eq, Hash)]
pub struct ReportKey {
    pub attempt: Attempt,
    pub server: ServerNo,
    pub job: JobNo,
}

/// The reports, in the order in which they came: at most one of each attempt, server and job.
pub struct Reports {
    list: Vec<Received>,
    /// What names each of them.
    keys: HashSet<ReportKey>,
}

/// By hand, so that the crates above need no proof of it.
impl Drop for Reports {
    fn drop(self) {
        let Reports { list: _, keys: _ } = self;
    }
}

impl Model for Reports {
    ghost use Rattle.std.specs.Prelude.{List};
    ghost use Rattle.std.specs.HashSet.{contains};
    ghost use Rattle.client_core.specs.declared.received.Received.{Received};
    ghost use Rattle.client_core.specs.ReportKeys.{is_same_report, AreKeysOf};

    ghost Value = { List Received };

    ghost view = { λ r. r.list.items };

    ghost invariant = { λ r. AreKeysOf r.list.items (contains is_same_report r.keys) };
}

impl Reports {
    /// No report. It takes no memory.
    pub fn new(alloc: Global) -> Reports
        ensures { result ≡ [] }
    {
        Reports {
            list: Vec::new(alloc),
            keys: HashSet::new(alloc),
        }
    }

    /// The reports, in their order.
    pub fn as_slice(&self) -> &[Received]
        ensures { result.now ≡ self.now }
    {
        &self.list
    }

    /// Adds a report, unless there is one of its attempt, server and job. Where memory runs out nothing
    /// changes.
    pub fn add(&mut self, received: Received) -> Result<(), AllocError>
        ensures added { OnOk result (self.new ≡ with_report received self.old) }
        ensures same { OnErr result (self.new ≡ self.old) }
    {
        let key = ReportKey {
            attempt: received.attempt,
            server: received.server,
            job: received.job,
        };
        if self.keys.contains(&key) {
            return Ok(());
        }
        self.list.push(received)?;
        match self.keys.insert(key) {
            Ok(_) => Ok(()),
            Err(_) => {
                let _ = self.list.pop();
                Err(AllocError)
            }
        }
    }
}
