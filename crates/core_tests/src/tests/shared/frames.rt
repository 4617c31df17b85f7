//! The frames that come to a node, and those that it sends.

use super::spelling::{Ends, Spelling, is_frame};
use super::trouble::Trouble;
use super::words::first_word;
use fc_base::Fault;
use messages::{Frame, Frames, decode_frame};
use std::alloc::Global;

/// The frame that comes, between these ends where it doesn't say `from A to B` first. Where memory runs
/// out, it is read again.
pub fn frame_in(
    alloc: Global,
    spelling: &mut Spelling,
    ends: Ends,
    words: &str,
) -> Result<Frame, Trouble> {
    let Some((ends, words)) = ends_in(ends, words) else {
        return Err(Trouble::BadRow);
    };
    spelling.spell(ends, words)?;
    decoded(alloc, spelling.frame())
}

/// The ends that words say, and what stands behind them.
fn ends_in(ends: Ends, words: &str) -> Option<(Ends, &str)> {
    let Some(rest) = words.strip_prefix("from ") else {
        return Some((ends, words));
    };
    let (from, rest) = first_word(rest);
    let (_, rest) = first_word(rest);
    let (to, rest) = first_word(rest);
    let from = from.parse::<u64>().ok()?;
    let to = to.parse::<u64>().ok()?;
    Some((Ends { from, to }, rest))
}

fn decoded(alloc: Global, bytes: &[u8]) -> Result<Frame, Trouble> {
    match decode_frame(alloc, bytes) {
        Err(Fault::FrameNoMemory) => read(decode_frame(alloc, bytes)),
        answer => read(answer),
    }
}

fn read(answer: Result<Frame, Fault>) -> Result<Frame, Trouble> {
    match answer {
        Ok(frame) => Ok(frame),
        Err(Fault::FrameNoMemory) => Err(Trouble::NoMemory),
        Err(fault) => Err(Trouble::BadFrame(fault.number())),
    }
}

/// Whether the parts of an answer that say frames say just these. They go between these ends, where they
/// don't say `to B` first.
pub fn are_sent(
    spelling: &mut Spelling,
    ends: Ends,
    frames: &Frames,
    words: &str,
) -> Result<bool, Trouble> {
    let mut count: usize = 0;
    let mut agree = true;
    for part in words.split('+') {
        agree = agree && is_next_sent(spelling, ends, frames, &mut count, part)?;
    }
    Ok(agree && frames.len() == count)
}

/// Whether a part of an answer says the next frame, behind so many, if it says one.
fn is_next_sent(
    spelling: &mut Spelling,
    ends: Ends,
    frames: &Frames,
    count: &mut usize,
    part: &str,
) -> Result<bool, Trouble> {
    if !is_frame(part) {
        return Ok(true);
    }
    spell_sent(spelling, ends, part.trim())?;
    let sent = frames.get(*count) == Some(spelling.frame());
    *count = count.saturating_add(1);
    Ok(sent)
}

fn spell_sent(spelling: &mut Spelling, ends: Ends, words: &str) -> Result<(), Trouble> {
    let Some(rest) = words.strip_prefix("to ") else {
        return spelling.spell(ends, words);
    };
    let (to, rest) = first_word(rest);
    match to.parse::<u64>() {
        Ok(to) => spelling.spell(
            Ends {
                from: ends.from,
                to,
            },
            rest,
        ),
        Err(_) => Err(Trouble::BadRow),
    }
}
