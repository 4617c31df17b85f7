//! What a script asks for in one place.

use crate::command::Command;
use net_world::Config;

/// An order of a script. Lines are counted from 1.
#[derive(Clone, Copy, PartialEq, Eq)]
pub(crate) enum Order<'a> {
    /// `servers N`, `servers N mirror`: a world of so many.
    Opens {
        line: u64,
        config: Config,
    },
    /// A command, with the text below it if it has one.
    Asks {
        line: u64,
        command: Command,
        text: &'a [u8],
    },
    /// A line that can't be read, or one whose text isn't closed: `at` is the number that is printed.
    Fails {
        line: u64,
        at: u64,
    },
}
