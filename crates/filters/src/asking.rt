//! What the bodies of records ask of the client.

ghost use Rattle.std.specs.Prelude.{◌≡◌, IfSome, drop};
ghost use Rattle.filters.specs.ClientAsks.{number_alone, trigger_in, kind_numbered, look_in, ends_in};
ghost use Rattle.fc_base.specs.Layouts.{number_in};

use client_core::RequestKind;
use fc_base::{Attempt, RunNo, ServerNo, split_u8, split_u32, split_u64};
use messages::Act;

/// The number in these eight bytes; `None` where they are more or fewer.
pub(crate) fn number_alone(bytes: &[u8]) -> Option<u64>
    ensures { result ≡ number_alone bytes.now }
{
    if bytes.len() != 8 {
        return None;
    }
    let (number, _) = split_u64(bytes);
    Some(number)
}

/// A trigger.
#[derive(Clone, Copy, Debug)]
pub(crate) struct TriggerAsked {
    pub run: RunNo,
    pub act: Act,
}

/// The trigger that these nine bytes ask for: of a run, and then an act.
pub(crate) fn trigger_in(bytes: &[u8]) -> Option<TriggerAsked>
    ensures { result ≡ trigger_in bytes.now }
{
    if bytes.len() != 9 {
        return None;
    }
    let (run, rest) = split_u64(bytes);
    let (number, _) = split_u8(rest);
    match Act::numbered(number) {
        Some(act) => Some(TriggerAsked {
            run: RunNo(run),
            act,
        }),
        None => None,
    }
}

/// Whose state is asked for: the request of this kind and number at a server.
#[derive(Clone, Copy, Debug)]
pub(crate) struct LookAsked {
    pub number: u64,
    pub server: ServerNo,
    pub kind: RequestKind,
}

/// The request that these 13 bytes name.
pub(crate) fn look_in(bytes: &[u8]) -> Option<LookAsked>
    ensures { result ≡ look_in bytes.now }
{
    if bytes.len() != 13 {
        return None;
    }
    let (number, rest) = split_u64(bytes);
    let (server, rest) = split_u32(rest);
    let (kind, _) = split_u8(rest);
    match kind_numbered(kind) {
        Some(kind) => Some(LookAsked {
            number,
            server: ServerNo(server),
            kind,
        }),
        None => None,
    }
}

/// Which attempt's end is asked for, of which run.
#[derive(Clone, Copy, Debug)]
pub(crate) struct EndsAsked {
    pub run: RunNo,
    pub attempt: Attempt,
}

/// The attempt that these 16 bytes name: its run in eight, and its number in eight.
pub(crate) fn ends_in(bytes: &[u8]) -> Option<EndsAsked>
    ensures { result ≡ ends_in bytes.now }
{
    if bytes.len() != 16 {
        return None;
    }
    let (run, rest) = split_u64(bytes);
    let (attempt, _) = split_u64(rest);
    Some(EndsAsked {
        run: RunNo(run),
        attempt: Attempt(attempt),
    })
}

/// The kind of requests that has this number.
fn kind_numbered(number: u8) -> Option<RequestKind>
    ensures { result ≡ kind_numbered number }
{
    if number == 1 {
        Some(RequestKind::Begin)
    } else if number == 2 {
        Some(RequestKind::Trigger)
    } else if number == 3 {
        Some(RequestKind::Stop)
    } else if number == 4 {
        Some(RequestKind::Verify)
    } else {
        None
    }
}
