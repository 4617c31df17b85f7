//! What a node answers to an input, whichever node it is, and how that is written.

ghost use Rattle.filters.specs.Written.{Puts};
ghost use Rattle.filters.specs.NodeTells.{answer_bytes, result_bytes, number_bytes, act_bytes};

use crate::kinds::OutRecordKind;
use crate::output::Output;
use crate::writing::{put_end, put_frames, put_record, put_save};
use fc_base::Fault;
use messages::{Act, Frames};

/// What a node answers.
#[derive(Drop)]
pub(crate) struct NodeStep {
    /// Whether it has saved its note.
    pub saves: bool,
    /// The number of a run or of an attempt that the client gives.
    pub number: Option<u64>,
    /// The frames that it sends.
    pub frames: Frames,
    /// What a server asks of its caller.
    pub act: Act,
}

/// Writes what is answered over this note, or why there is no answer.
#[tactic(auto, using(crate::proofs::OutputLemmas::puts_both))]
pub(crate) fn put_result<W: Output>(writer: &mut W, note: &[u8], answer: Result<NodeStep, Fault>)
    ensures { Puts (W.written writer.old) (W.written writer.new)
        (result_bytes note.now answer) }
{
    match answer {
        Ok(answered) => {
            put_answer(writer, note, &answered);
            put_end(writer, Ok(()));
        }
        Err(fault) => put_end(writer, Err(fault)),
    }
}

/// Writes what is answered over this note: first what is saved, and then what may be carried out only once that
/// is durable.
#[tactic(auto, using(crate::proofs::OutputLemmas::puts_both))]
pub(crate) fn put_answer<W: Output>(writer: &mut W, note: &[u8], answered: &NodeStep)
    ensures { Puts (W.written writer.old) (W.written writer.new)
        (answer_bytes note.now answered.now) }
{
    put_save(writer, answered.saves, note);
    put_number(writer, answered.number);
    put_frames(writer, &answered.frames);
    put_act(writer, answered.act)
}

/// Writes a number that is given.
#[tactic(auto, unfolding(fc_base::specs::Layouts::bytes_of))]
fn put_number<W: Output>(writer: &mut W, number: Option<u64>)
    ensures { Puts (W.written writer.old) (W.written writer.new)
        (number_bytes number) }
{
    match number {
        Some(number) => put_record(writer, OutRecordKind::Number, &number.to_be_bytes()),
        None => {}
    }
}

/// Writes that the cut is asked for, where it is.
fn put_act<W: Output>(writer: &mut W, act: Act)
    ensures { Puts (W.written writer.old) (W.written writer.new)
        (act_bytes act) }
{
    match act {
        Act::Cut => put_record(writer, OutRecordKind::Cut, &[]),
        Act::None => {}
    }
}
