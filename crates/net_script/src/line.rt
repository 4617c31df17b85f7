//! What a line of a script asks for.

use crate::command::Command;
use net_world::Config;

/// What a line asks for.
#[derive(Clone, Copy, Debug, PartialEq, Eq)]
pub enum ScriptLine {
    /// Nothing: it has no words, or its first begins with `#`.
    Skipped,
    /// `servers N`, `servers N mirror`: a world of so many, 1 to 8.
    Servers(Config),
    /// A command.
    Asks(Command),
    /// Nothing that can be read.
    Unread,
}
