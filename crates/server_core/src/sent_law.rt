//! Where a server's packets go, and what its reports are of. The functions have nothing to run.

ghost use Rattle.server_core.specs.Sent.{PacketsGoToClient};
ghost use Rattle.server_core.specs.Made.{ReportsWereMade};

/// What a server sends goes to the client in its own name, and is of a kind that servers send.
pub fn packets_go_to_client()
    ensures { PacketsGoToClient }
{}

/// Each Report that a server sends, for the first time or again, is of a check that was done here: of its run, attempt
/// and job, and with its report.
pub fn reports_were_made()
    ensures { ReportsWereMade }
{}
