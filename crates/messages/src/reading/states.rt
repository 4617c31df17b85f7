//! Reading bodies that carry a verify state, of either layout.

ghost use Rattle.std.specs.Prelude.{◌≡◌};
ghost use Rattle.messages.specs.declared.kind.PacketKind.TheVariants.{State, Saved, Copy};
ghost use Rattle.messages.specs.Bodies.{body_at, state_said};

use crate::body::Body;
use crate::reading::in_range;
use fc_base::{Attempt, split_u32, split_u64};
use verify_state::VerifyState;

pub(super) fn state(bytes: &[u8]) -> Option<Body>
    ensures { result ≡ body_at State bytes.now }
{
    if bytes.len() < 4 {
        return None;
    }
    let (jobs, rest) = split_u32(bytes);
    let state = state_of(rest)?;
    in_range(Body::State { jobs, state })
}

pub(super) fn saved(bytes: &[u8]) -> Option<Body>
    ensures { result ≡ body_at Saved bytes.now }
{
    if bytes.len() < 8 {
        return None;
    }
    let (attempt, rest) = split_u64(bytes);
    let state = state_of(rest)?;
    in_range(Body::Saved {
        attempt: Attempt(attempt),
        state,
    })
}

pub(super) fn copy(bytes: &[u8]) -> Option<Body>
    ensures { result ≡ body_at Copy bytes.now }
{
    let state = state_of(bytes)?;
    in_range(Body::Copy { state })
}

/// The state that all of these bytes are.
fn state_of(bytes: &[u8]) -> Option<VerifyState>
    ensures { result ≡ state_said bytes.now }
{
    match VerifyState::decode(bytes) {
        Ok(state) => Some(state),
        Err(_) => None,
    }
}
