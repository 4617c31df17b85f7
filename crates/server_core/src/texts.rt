//! The jobs that a text gives to a phase.

ghost use Rattle.std.specs.Prelude.{◌≡◌, IfOk, OnErr};
ghost use Rattle.server_core.specs.WordsAfter.{GivesJobs};
ghost use Rattle.server_core.specs.InnerCalls.{LacksJobs, fault_of_text};
ghost use Rattle.server_core.specs.Texts.{is_phase};

use fc_base::Fault;
use job_file::{JobFault, Jobs, Phase, parse};
use std::alloc::Global;

/// The jobs that a text gives to a phase, or the number of what is wrong with it: its refusal, or
/// `WrongPhase`. `NoMemory` may stand in place of any answer.
pub(crate) fn jobs_for(alloc: Global, phase: Phase, text: &[u8]) -> Result<Jobs, Fault>
    ensures jobs { IfOk result (GivesJobs phase text.now) }
    ensures fault { OnErr result (LacksJobs phase text.now result) }
{
    crate::law::legal_histories();
    match parse(alloc, text) {
        Ok(set) if is_phase(phase, set.phase) => Ok(set.jobs),
        Ok(_) => Err(Fault::WrongPhase),
        Err(fault) => Err(told(fault)),
    }
}

/// What is wrong with a text, as a server tells it: its own want of memory is `NoMemory`.
fn told(fault: JobFault) -> Fault
    ensures { result ≡ fault_of_text fault }
{
    match fault {
        JobFault::NoMemory => Fault::NoMemory,
        fault => fault.fault(),
    }
}

/// Whether the phases are the same.
fn is_phase(a: Phase, b: Phase) -> bool
    ensures { result ≡ is_phase a b }
{
    a == b
}
