//! What the open check is of. The function has nothing to run.

ghost use Rattle.server_core.specs.OpenCheck.{OpenCheckIsLast};

/// The open check is of the last run, of this server and boot.
pub fn open_check_is_last()
    ensures { OpenCheckIsLast }
{}
