//! What the client asks of a mirror.

ghost use Rattle.std.specs.Prelude.{◌≡◌, MatchOption, Some, None, slice_get, is_some};
ghost use Rattle.mirror_core.specs.Requests.{asked_by, request_in, is_for_mirror, IsRequest};
ghost use Rattle.mirror_core.specs.Refusals.{faults_of_request};
ghost use Rattle.mirror_core.specs.Saves.{addition_by};

use crate::note::MirrorNote;
use fc_base::Fault;
use messages::{Body, Frame, Packet};
use verify_state::{KEPT_LIMIT, VerifyState};

/// What the client asks of a mirror.
#[derive(Drop)]
pub(crate) enum Request {
    /// Keep a copy of this state.
    Copy(VerifyState),
    /// Grant this generation, and send each state that you keep.
    Fetch(u64),
}

/// What a frame asks of a mirror, `None` where that is nothing: it is a piece, or its packet isn't from
/// the client to the mirror, or neither a Copy nor a Fetch.
pub(crate) fn request_in(frame: &Frame) -> Option<Request>
    ensures value { result ≡ request_in frame.now }
    ensures range { MatchOption result (Unit {0}) IsRequest }
{
    match frame {
        Frame::Whole(packet) if is_for_mirror(packet) => asked_by(packet),
        Frame::Whole(_) | Frame::Piece(_) => None,
    }
}

/// Whether a packet goes from the client to the mirror.
fn is_for_mirror(packet: &Packet) -> bool
    ensures { result ≡ is_for_mirror packet.now }
{
    packet.to().is_mirror() && packet.from().is_client()
}

/// What a packet asks for.
fn asked_by(packet: &Packet) -> Option<Request>
    ensures value { result ≡ asked_by packet.now.body }
    ensures range { MatchOption result (Unit {0}) IsRequest }
{
    packet.keeps_its_ranges();
    match packet.body() {
        Body::Copy { state } => Some(Request::Copy(*state)),
        Body::Fetch { generation } => Some(Request::Fetch(generation.0)),
        _ => None,
    }
}

impl MirrorNote {
    /// Why what is asked for is refused: another state of its key is kept, or there is no room for one
    /// more; a greater generation was granted.
    pub(crate) fn fault_of(&self, request: &Request) -> Option<Fault>
        ensures { result ≡ slice_get (faults_of_request self.now request.now) 0 }
    {
        match request {
            Request::Copy(state) => match self.kept.get(state.key()) {
                Some(kept) if !kept.same(state) => Some(Fault::Conflict),
                None if self.kept.len() >= KEPT_LIMIT => Some(Fault::TableFull),
                _ => None,
            },
            Request::Fetch(generation) if *generation < self.generation => Some(Fault::Old),
            Request::Fetch(_) => None,
        }
    }

    /// Whether what is asked for adds to the note: a state of a key of which none is kept, or a generation
    /// that is greater than the note's.
    pub(crate) fn lacks(&self, request: &Request) -> bool
        ensures { result ≡ is_some (addition_by self.now request.now) }
    {
        match request {
            Request::Copy(state) => !self.kept.has(state.key()),
            Request::Fetch(generation) => self.generation < *generation,
        }
    }
}
