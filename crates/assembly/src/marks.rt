//! Which events took or sent frames, and which of them an entry of the journal tells of.

ghost use Rattle.std.specs.Prelude.{◌≡◌, ◌+◌, ◌<◌, ◌≤◌, ◌^◌, ℕ, [], ◌∷◌, length, take, drop, is_some, if◌then◌else◌, slice_get, Some, Decides};
ghost use Rattle.std.specs.Option.{option_and_then};
ghost use Rattle.assembly.specs.Marks.{frame_of, mark_of, mark_of_line};
ghost use Rattle.assembly.specs.Order.{whole_mark};

use cells::{HistoryEntry, NodeInput, is_left_out};
use messages::{Frames, Hub, Line};

/// Whether an event took a frame or sent some.
pub(crate) fn is_marked(event: &HistoryEntry) -> bool
    ensures { (at : ℕ) →
        mark_of at event.now ≡ (if result then whole_mark at event.now ∷ [] else []) }
{
    !is_left_out(&event.answer) && (has_frame(&event.came) || event.sent.len() != 0)
}

/// Whether a frame came.
fn has_frame(came: &NodeInput) -> bool
    ensures { result ≡ is_some (frame_of came.now) }
{
    matches!(came, NodeInput::Frame(_))
}

/// Whether an entry of the journal, before which so many frames were sent, tells of this event, if it is at
/// the entry's place: it took the entry's frame and sent its frames, by their bytes.
pub(crate) fn is_told_by(hub: &Hub, before: u64, line: &Line, event: &HistoryEntry) -> bool
    requires there { before + line.now.sent ≤ length hub.now.net.frames }
    requires fits { length hub.now.net.frames < 2 ^ 64 }
    ensures { Decides result
        (mark_of line.now.at event.now ≡ mark_of_line hub.now.net.frames before line.now ∷ []) }
{
    is_marked(event) && has_same(hub, before, line, event)
}

/// Whether an event took and sent the frames that an entry says.
fn has_same(hub: &Hub, before: u64, line: &Line, event: &HistoryEntry) -> bool
    requires there { before + line.now.sent ≤ length hub.now.net.frames }
    requires fits { length hub.now.net.frames < 2 ^ 64 }
    ensures { Decides result
        (whole_mark line.now.at event.now ≡ mark_of_line hub.now.net.frames before line.now) }
{
    has_taken(hub, line.taken, &event.came) && has_sent(hub, before, line.sent, &event.sent)
}

/// Whether what came is the frame of this number; none where there is no number.
fn has_taken(hub: &Hub, taken: Option<u64>, came: &NodeInput) -> bool
    ensures { Decides result
        (frame_of came.now ≡ option_and_then (λ i. slice_get hub.now.net.frames i) taken) }
{
    let frame = match taken {
        Some(number) => hub.frame(number),
        None => None,
    };
    match (came, frame) {
        (NodeInput::Frame(bytes), Some(frame)) => bytes.as_slice() == frame,
        (NodeInput::Frame(_), None) => false,
        (_, frame) => frame.is_none(),
    }
}

/// Whether these frames were sent: so many, behind so many.
fn has_sent(hub: &Hub, before: u64, count: u64, sent: &Frames) -> bool
    requires there { before + count ≤ length hub.now.net.frames }
    requires fits { length hub.now.net.frames < 2 ^ 64 }
    ensures { Decides result (sent.now ≡ take count (drop before hub.now.net.frames)) }
{
    if sent.len() as u64 != count {
        return false;
    }
    let mut i = 0;
    while let Some(bytes) = sent.get(i) {
        if !is_frame(hub, before + i as u64, bytes) {
            return false;
        }
        i += 1;
    }
    true
}

/// Whether these are the bytes of the frame of this number.
fn is_frame(hub: &Hub, number: u64, bytes: &[u8]) -> bool
    ensures { Decides result (slice_get hub.now.net.frames number ≡ Some bytes.now) }
{
    match hub.frame(number) {
        Some(frame) => frame == bytes,
        None => false,
    }
}
