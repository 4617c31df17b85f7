//! The world of a script, which is played line by line. It goes the way of `run_script`, whose own world
//! nobody sees.

ghost use Rattle.std.specs.Prelude.{◌≤◌};
ghost use Rattle.fc_base.specs.declared.limits.TheConstants.{MAX_SERVERS};

use crate::notes::Notes;
use fc_base::FaultSort;
use net_script::{Command, Saving, ScriptLine, event_of, line_of};
use net_world::{Config, World};
use std::alloc::Global;

/// What came of a script: its world, and what the client's note showed.
#[derive(Drop)]
pub struct Outcome {
    pub world: World,
    pub notes: Notes,
}

/// A script that is being played.
#[derive(Drop)]
struct Play {
    alloc: Global,
    /// Its world, once it is made.
    world: Option<World>,
    /// What the client's note showed behind each command.
    notes: Notes,
    /// How many commands there were, with the one that makes the world.
    commands: usize,
    /// The command whose text is being read, if there is one.
    asked: Option<Command>,
    /// What was read of that text.
    text: Vec<u8>,
}

/// The world of a script as it is in the end: behind the last line, in front of the first bad one, or of
/// the command at which memory runs out; and what the client's note showed by then. `None` where the
/// script makes no world.
pub fn played(alloc: Global, script: &[u8]) -> Option<Outcome> {
    let mut play = Play {
        alloc,
        world: None,
        notes: Notes::new(alloc),
        commands: 0,
        asked: None,
        text: Vec::new(alloc),
    };
    for line in script.split(|byte| *byte == b'\n') {
        if play.take(line).is_none() {
            break;
        }
    }
    let Play { world, notes, .. } = play;
    match world {
        Some(world) => Some(Outcome { world, notes }),
        None => None,
    }
}

/// Each of these takes a part of the script. `None` is answered where the script ends there: what it says
/// can't be read or has no place there, or memory runs out.
impl Play {
    /// Takes a line, without its line feed.
    fn take(&mut self, line: &[u8]) -> Option<()> {
        match self.asked {
            Some(command) => self.take_text(&command, line),
            None => match line_of(line) {
                ScriptLine::Skipped => Some(()),
                ScriptLine::Servers(config) => self.open(config),
                ScriptLine::Asks(command) => self.ask(command),
                ScriptLine::Unread => None,
            },
        }
    }

    /// Takes a line of the text of a command, or the one that closes it.
    fn take_text(&mut self, command: &Command, line: &[u8]) -> Option<()> {
        if line == b".".as_slice() {
            let text = std::mem::replace(&mut self.text, Vec::new(self.alloc));
            self.asked = None;
            return self.happen(command, text.as_slice());
        }
        self.text.extend_from_slice(line).ok()?;
        self.text.push(b'\n').ok()
    }

    /// Makes the world, if there is none yet.
    fn open(&mut self, config: Config) -> Option<()>
        requires some { 1 ≤ config.servers }
        requires few { config.servers ≤ MAX_SERVERS }
    {
        if self.world.is_some() {
            return None;
        }
        self.world = Some(World::new(self.alloc, config).ok()?);
        self.commands = 1;
        Some(())
    }

    /// Takes a command: it happens, or its text is waited for.
    fn ask(&mut self, command: Command) -> Option<()> {
        if has_text(&command) {
            self.asked = Some(command);
            return Some(());
        }
        self.happen(&command, &[])
    }

    /// Makes happen what a command asks for, and looks at what the client's note shows behind it. It is
    /// passed over where it is refused.
    fn happen(&mut self, command: &Command, text: &[u8]) -> Option<()> {
        let world = self.world.as_mut()?;
        let event = event_of(self.alloc, command, text).ok()?;
        if let Err(fault) = world.apply(&event) {
            if fault.sort() == FaultSort::Memory {
                return None;
            }
        }
        self.notes.look(self.commands, world)?;
        self.commands = self.commands.checked_add(1)?;
        Some(())
    }
}

/// Whether a text stands below the command.
fn has_text(command: &Command) -> bool {
    match command {
        Command::Saves(saving) => reads_text(saving),
        Command::CutShort { command, .. } => reads_text(command),
        _ => false,
    }
}

/// Whether a text stands below this command, which may save.
fn reads_text(command: &Saving) -> bool {
    matches!(command, Saving::Begin | Saving::Verify(_))
}
