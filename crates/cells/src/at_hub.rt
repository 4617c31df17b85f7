//! What comes to a node from the hub, and what its history keeps of it.

ghost use Rattle.std.specs.Prelude.{◌≡◌, IfOk, Err};
ghost use Rattle.cells.specs.AtHub.{is_left_out, is_save, is_drop, is_frame, is_quiet, lacks_memory, told_at, Comes};

use crate::answer::{Receipt, Reply};
use crate::entry::HistoryEntry;
use crate::input::{FrameBytes, NodeInput};
use fc_base::{Fault, FaultSort};
use messages::{Frame, Hub, decode_frame};
use std::alloc::{AllocError, Global};

/// The frame at this position of the hub, as it comes and as a history keeps it. `NoFrame`; `NoMemory`.
pub fn frame_came(alloc: Global, hub: &Hub, position: u64) -> Result<(NodeInput, Frame), Fault>
    ensures { Comes hub.now.net position result }
{
    let Some(bytes) = hub.frame(position) else {
        return Err(Fault::NoFrame);
    };
    let Ok(frame) = decode_frame(alloc, bytes) else {
        return Err(Fault::NoMemory);
    };
    match copy(alloc, bytes) {
        Ok(kept) => Ok((NodeInput::Frame(kept), frame)),
        Err(_) => Err(Fault::NoMemory),
    }
}

/// A copy of a frame's bytes.
fn copy(alloc: Global, bytes: &[u8]) -> Result<FrameBytes, AllocError>
    ensures { IfOk result (λ kept. kept ≡ bytes.now) }
{
    let mut kept = Vec::with_capacity(alloc, bytes.len())?;
    kept.extend_from_slice(bytes)?;
    Ok(FrameBytes::new(kept))
}

/// Whether an answer leaves a history as it was: it is a refusal that changes nothing.
pub fn is_left_out(answer: &Result<Reply, Fault>) -> bool
    ensures { result ≡ is_left_out answer.now }
{
    match answer {
        Ok(_) => false,
        Err(fault) => !(is_save(fault.sort()) || is_drop(*fault)),
    }
}

fn is_save(sort: FaultSort) -> bool
    ensures { result ≡ is_save sort }
{
    match sort {
        FaultSort::Memory => false,
        FaultSort::Save => true,
        FaultSort::Refusal => false,
    }
}

fn is_drop(fault: Fault) -> bool
    ensures { result ≡ is_drop fault }
{
    matches!(fault, Fault::FrameBadField)
}

/// Whether an entry stands, and neither took nor sent a frame.
pub(crate) fn is_quiet(entry: &HistoryEntry) -> bool
    ensures { result ≡ is_quiet entry.now }
{
    !is_left_out(&entry.answer) && !is_frame(&entry.came) && entry.sent.len() == 0
}

/// Whether a frame came.
fn is_frame(came: &NodeInput) -> bool
    ensures { result ≡ is_frame came.now }
{
    matches!(came, NodeInput::Frame(_))
}

/// Whether memory ran out.
#[inline(always)]
pub fn lacks_memory(answer: &Result<Reply, Fault>) -> bool
    ensures { result ≡ lacks_memory answer.now }
{
    match answer {
        Ok(_) => false,
        Err(fault) => matches!(fault.sort(), FaultSort::Memory),
    }
}

/// What is told of an answer, with so many frames behind so many.
#[inline(always)]
pub fn told_at(first: u64, sent: u64, answer: &Result<Reply, Fault>) -> Result<Receipt, Fault>
    ensures { result ≡ told_at first sent answer.now }
{
    match answer {
        Ok(said) => Ok(Receipt {
            answer: said.answer,
            first,
            sent,
            act: said.act,
        }),
        Err(fault) => Err(*fault),
    }
}
