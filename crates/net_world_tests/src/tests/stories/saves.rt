//! What cuts of the stored run leave, and of one whose client loses its note and has it back from a mirror.

use super::super::played::Leaves;
use Leaves::{Checked, Kept, Nothing, Same};

/// Whose save it would be.
#[derive(Clone, Copy)]
pub enum Whose {
    Server,
    Client,
    Mirror,
}

use Whose::{Client, Mirror, Server};

/// For each command of the stored run at which node it is stopped within its save, and what is left, before
/// the save lands and behind it. What makes no save isn't stopped.
pub const STOPS: [(Whose, Leaves, Leaves); 21] = [
    // `begin`: behind its save, the run that begins is another one.
    (Client, Same, Nothing),
    (Server, Same, Same),
    (Client, Same, Same),
    // The Start comes to the server, which loses what is staged; behind its save, the run has ended.
    (Server, Nothing, Nothing),
    (Client, Same, Same),
    (Server, Same, Same),
    (Server, Same, Same),
    (Server, Same, Same),
    (Server, Same, Same),
    (Client, Same, Same),
    (Server, Same, Same),
    // The State comes to the client: it is sent again, and kept or known.
    (Client, Same, Same),
    (Server, Same, Same),
    (Server, Same, Same),
    // The server is started again: behind its save, with the boot after the next.
    (Server, Same, Checked),
    // `verify`: behind its save, the attempt is another one.
    (Client, Same, Checked),
    (Server, Same, Same),
    (Client, Same, Same),
    (Server, Same, Same),
    (Server, Same, Same),
    (Client, Same, Same),
];

/// What is left where the server is cut before each command and behind the last, and where the client is.
pub const CUTS: [(Leaves, Leaves); 22] = [
    // The server has stored nothing yet: it is told the jobs behind its restart.
    (Checked, Same),
    // The client has begun a run that it doesn't go on with behind its restart.
    (Checked, Nothing),
    // The server has lost the jobs that it was told, and from its Start on the run.
    (Nothing, Nothing),
    (Nothing, Same),
    (Nothing, Same),
    (Nothing, Same),
    (Nothing, Same),
    (Nothing, Same),
    (Nothing, Same),
    (Nothing, Same),
    (Nothing, Same),
    // The State is on its way: the client keeps it, and the next life of the server is told it.
    (Checked, Same),
    (Checked, Same),
    (Checked, Same),
    // The server is off: the cut is refused, and the restart comes early.
    (Same, Same),
    (Checked, Same),
    (Checked, Same),
    // The server has lost the attempt that it was told of.
    (Kept, Same),
    (Kept, Same),
    (Kept, Same),
    // The check is reported.
    (Checked, Same),
    (Checked, Same),
];

/// The same of the run with a mirror: for each command at which node it is stopped.
pub const STOPS_WITH_MIRROR: [(Whose, Leaves, Leaves); 35] = [
    (Client, Same, Same),
    (Client, Same, Same),
    // The Fetch comes to the mirror.
    (Mirror, Same, Same),
    (Client, Same, Same),
    // `begin`: the client that is started again isn't granted its generation.
    (Client, Nothing, Nothing),
    (Server, Same, Same),
    (Client, Same, Same),
    // The Start comes to the server, which loses what is staged.
    (Server, Nothing, Nothing),
    (Client, Same, Same),
    (Server, Same, Same),
    (Server, Same, Same),
    (Server, Same, Same),
    (Client, Same, Same),
    (Server, Same, Same),
    // The State comes to the client: behind its save it is known, and no Copy is sent before the note is lost.
    (Client, Same, Nothing),
    // The Copy comes to the mirror.
    (Mirror, Same, Same),
    (Client, Same, Same),
    // `losenote`: there is no save; the client is started again with its note, and keeps it.
    (Client, Kept, Kept),
    (Client, Same, Same),
    (Client, Same, Same),
    // `renew`: before its save, the generation is used up, and no client is on.
    (Client, Nothing, Same),
    (Client, Same, Same),
    // The Fetch comes to the mirror.
    (Mirror, Same, Same),
    (Client, Same, Same),
    // The Copy comes to the client, which isn't granted its generation any more: no check.
    (Client, Kept, Kept),
    (Client, Kept, Kept),
    (Server, Same, Same),
    (Server, Same, Same),
    // The server is started again: behind its save, with the boot after the next.
    (Server, Same, Checked),
    // `verify`, likewise.
    (Client, Kept, Kept),
    (Server, Same, Same),
    (Client, Same, Same),
    (Server, Same, Same),
    (Server, Same, Same),
    (Client, Same, Same),
];

/// What is left of it where the server is cut before each command and behind the last, and where the client is.
pub const CUTS_WITH_MIRROR: [(Leaves, Leaves); 36] = [
    // The server has stored nothing yet.
    (Checked, Same),
    (Checked, Same),
    (Checked, Same),
    (Checked, Same),
    // The client isn't granted its generation any more: no run begins.
    (Checked, Nothing),
    // It has begun a run that it doesn't go on with.
    (Checked, Nothing),
    // The server has lost the jobs, and from its Start on the run.
    (Nothing, Nothing),
    (Nothing, Same),
    (Nothing, Same),
    (Nothing, Same),
    (Nothing, Same),
    (Nothing, Same),
    (Nothing, Same),
    (Nothing, Same),
    // The State is on its way.
    (Checked, Same),
    (Checked, Same),
    (Checked, Same),
    // The client is off: the cut is refused, and it is started again with its note, which then can't be lost.
    (Checked, Kept),
    // It has no note: the restart is refused, too.
    (Checked, Same),
    (Checked, Same),
    (Checked, Same),
    (Checked, Same),
    (Checked, Same),
    (Checked, Same),
    // It isn't granted its generation any more: no check.
    (Checked, Kept),
    (Checked, Kept),
    (Checked, Kept),
    (Checked, Kept),
    // The server is off: the cut is refused, and the restart comes early.
    (Same, Kept),
    (Checked, Kept),
    // The client has asked for its check.
    (Checked, Same),
    // The server has lost the attempt that it was told of.
    (Kept, Same),
    (Kept, Same),
    (Kept, Same),
    // The check is reported.
    (Checked, Same),
    (Checked, Same),
];
