//! Numbers and requests that rows say.

use client_core::RequestKind;
use messages::Act;

/// The act of a trigger: 0 or 1, as in its frame.
pub fn act_in(word: &str) -> Option<Act> {
    match word {
        "0" => Some(Act::None),
        "1" => Some(Act::Cut),
        _ => None,
    }
}

/// The kind of request that a word names.
pub fn kind_in(word: &str) -> Option<RequestKind> {
    match word {
        "begin" => Some(RequestKind::Begin),
        "trigger" => Some(RequestKind::Trigger),
        "stop" => Some(RequestKind::Stop),
        "verify" => Some(RequestKind::Verify),
        _ => None,
    }
}
