//! What is told of what happens, as it is printed.

ghost use Rattle.std.specs.Prelude.{◌≡◌, ◌+◌, ◌++◌, ◌∷◌, ℕ, List, Some, length, IfSome, OnOk, slice_get};
ghost use Rattle.std.specs.List.{flat_map};
ghost use Rattle.std.specs.Io.KnownBytes.{Appends};
ghost use Rattle.messages.specs.declared.frame.Frame.{Frame};
ghost use Rattle.messages.specs.Looks.{LooksAtFrames};
ghost use Rattle.net_world.specs.Sending.{sent_in};
ghost use Rattle.program_io.specs.Words.{with_line_feed};
ghost use Rattle.net_script.specs.Printed.{answer_line, has_faults, act_lines, sent_lines};
ghost use Rattle.net_script.specs.Told.{AreBytesOf};

use crate::output::{CutLine, FrameLine};
use engine::Issue;
use fc_base::CheckReport;
use messages::{Act, Node, look_at};
use net_world::{FrameLog, Told, WorldAnswer};
use program_io::write_report_words;
use std::io;
use std::io::{ErrorKind, Write};

/// Writes the lines of what is told, where these are the frames that were ever sent, and a frame came to
/// this node.
pub(crate) fn write_told<W: Write>(
    writer: &mut W,
    told: &Told,
    frames: &FrameLog,
    addressee: Option<Node>,
) -> io::Result<()>
    ensures { (sent : List Frame) →
        AreBytesOf sent told.now.first told.now.sent (sent_in frames.now) →
        OnOk result (Appends (W.contents writer.old) (W.contents writer.new)
        (flat_map with_line_feed
        ((answer_line told.now.answer ∷ sent_lines told.now.first sent)
        ++ act_lines addressee told.now.act))) }
{
    write_answer(writer, &told.answer)?;
    write_sent(writer, frames, told.first, told.sent)?;
    write_act(writer, addressee, told.act)
}

/// Writes the line of an answer.
fn write_answer<W: Write>(writer: &mut W, answer: &WorldAnswer) -> io::Result<()>
    ensures { OnOk result
        (Appends (W.contents writer.old) (W.contents writer.new)
        (with_line_feed (answer_line answer.now))) }
{
    match answer {
        WorldAnswer::Plain => writeln!(writer, "ok"),
        WorldAnswer::Run(run) => writeln!(writer, "ok run {}", run.0),
        WorldAnswer::Attempt(attempt) => writeln!(writer, "ok attempt {}", attempt.0),
        WorldAnswer::Issued(issue) => write_issue(writer, issue),
        WorldAnswer::Checked(report) => write_report(writer, report.as_report()),
    }
}

/// Writes the line of what a worker is told that asks for a write.
fn write_issue<W: Write>(writer: &mut W, issue: &Issue) -> io::Result<()>
    ensures { OnOk result
        (Appends (W.contents writer.old) (W.contents writer.new)
        (with_line_feed (answer_line (WorldAnswer.Issued issue.now)))) }
{
    match issue {
        Issue::Write(ticket) => writeln!(
            writer,
            "ok write {} block {}",
            ticket.seq.0, ticket.block
        ),
        Issue::Full => writeln!(writer, "ok full"),
        Issue::Held => writeln!(writer, "ok held"),
        Issue::Overlap => writeln!(writer, "ok overlap"),
        Issue::Finished => writeln!(writer, "ok finished"),
        Issue::Stopped => writeln!(writer, "ok stopped"),
    }
}

/// Writes the line of a report.
fn write_report<W: Write>(writer: &mut W, report: &CheckReport) -> io::Result<()>
    ensures { OnOk result
        (Appends (W.contents writer.old) (W.contents writer.new)
        (with_line_feed (answer_line (WorldAnswer.Checked report.now)))) }
{
    write!(writer, "ok report ")?;
    write_report_words(writer, report)?;
    writeln!(writer)
}

/// Writes the lines of so many frames, from one on. An error where there are fewer.
fn write_sent<W: Write>(writer: &mut W, frames: &FrameLog, first: u64, count: u64) -> io::Result<()>
    ensures { (sent : List Frame) → AreBytesOf sent first count (sent_in frames.now) →
        OnOk result (Appends (W.contents writer.old) (W.contents writer.new)
        (flat_map with_line_feed (sent_lines first sent))) }
{
    for offset in 0..count {
        let Some(line) = frame_line(frames, first, offset) else {
            return Err(ErrorKind::InvalidInput.into());
        };
        writeln!(writer, "{line}")?;
    }
    Ok(())
}

/// The line of the frame that lies so many behind the first.
fn frame_line(frames: &FrameLog, first: u64, offset: u64) -> Option<FrameLine>
    ensures { IfSome result
        (λ line. (bytes : List ℕ) × (slice_get (sent_in frames.now) (first + offset) ≡ Some bytes)
        × (line.number ≡ first + offset) × (line.len ≡ length bytes)
        × LooksAtFrames bytes (Some line.look)) }
{
    let number = first.checked_add(offset)?;
    let index = usize::try_from(number).ok()?;
    let bytes = frames.get(index)?;
    let look = look_at(bytes)?;
    Some(FrameLine {
        number,
        look,
        len: bytes.len(),
    })
}

/// Writes the line of a cut that a server asks for, to which a frame came.
fn write_act<W: Write>(writer: &mut W, addressee: Option<Node>, act: Act) -> io::Result<()>
    ensures { OnOk result
        (Appends (W.contents writer.old) (W.contents writer.new)
        (flat_map with_line_feed (act_lines addressee act))) }
{
    match (addressee, act) {
        (Some(node), Act::Cut) => writeln!(writer, "{}", CutLine(node)),
        _ => Ok(()),
    }
}

/// Whether a report has faults.
pub(crate) fn has_faults(answer: &WorldAnswer) -> bool
    ensures { result ≡ has_faults answer.now }
{
    match answer {
        WorldAnswer::Checked(report) => report.as_report().faults() > 0,
        _ => false,
    }
}
