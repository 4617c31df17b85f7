//! Where open writes come from. The function has nothing to run.

ghost use Rattle.server_core.specs.OpenWrites.{TicketsTellOrigins};

/// The ticket of an open write and its job tell where the write comes from; of any other there is no
/// ticket.
pub fn tickets_tell_origins()
    ensures { TicketsTellOrigins }
{}
