//! Gates: which writes may be carried out, and when.

use engine::Ticket;

/// How often a worker asks a gate for the writes that it has in hand without one that is let through, and how
/// often it tells that writes have ended where there is no memory for that, before it gives up.
pub const TURNS: u32 = 1_000_000;

/// What a worker asks before each write, and tells behind it. No lock is held meanwhile.
pub trait Gate {
    /// Whether this write may be carried out by now.
    fn may_write(&self, ticket: &Ticket) -> bool;

    /// This write was carried out, or has failed, and the server knows.
    fn written(&self, ticket: &Ticket);
}

/// The gate through which each write may go at once.
#[derive(Clone, Copy)]
pub struct OpenGate;

impl Gate for OpenGate {
    fn may_write(&self, _ticket: &Ticket) -> bool {
        true
    }

    fn written(&self, _ticket: &Ticket) {}
}
