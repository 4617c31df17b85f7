//! A node under its lock: a server or the client.

ghost use Rattle.std.specs.Prelude.{◌≡◌, ℕ, false, List, IfErr, reverse, slice_get};
ghost use Rattle.messages.specs.declared.node.Node.{Node as Name};
ghost use Rattle.cells.specs.declared.entry.HistoryEntry.{HistoryEntry as Entry};
ghost use Rattle.cells.specs.Calls.{Replays, Delivers, RefusedAt, RefusedAfter, Commands};
ghost use Rattle.cells.specs.Failures.{Counts};
ghost use Rattle.cells.specs.Rules.{Ask, Rules};

use crate::answer::Receipt;
use crate::history::History;
use fc_base::Fault;
use messages::{Hub, Node as NodeName};

/// A node under its lock, whose state is always the replay of the history that it keeps. No call of it
/// waits.
pub trait Node {
    /// What it is asked that may send frames and takes none.
    type Command;

    /// What it was opened with.
    ghost Opening: { Type 0 };

    /// What its core meets.
    ghost Input: { Type 0 };

    /// The entries of its core's list.
    ghost Past: { Type 0 };

    /// Its rules, where it was opened so.
    ghost rules: { Opening → Rules Input Past };

    /// Which node it is that was opened so.
    ghost name: { Opening → Name };

    /// What a command asks.
    ghost asks: { Self.Command → Ask Input };

    /// How it was opened.
    ghost opening: { Self → Opening };

    /// All that came to it, the newest first.
    ghost log: { Self → List Entry };

    /// How often the device of its note has failed.
    ghost failures: { Self → ℕ };

    /// Which node it is.
    fn number(&self) -> NodeName
        ensures { result ≡ name (opening self.now) };

    /// All that came to it, the oldest first.
    fn history(&self) -> &History
        ensures entries { result.now.items ≡ reverse (log self.now) }
        ensures replay { Replays (rules (opening self.now)) (log self.now) };

    /// Takes the frame at this position of the hub.
    ///
    /// In this order: `NodeOff`, it isn't on; `NoFrame`, the hub has no such frame; the node's own. Where
    /// a save fails, or a piece completes a body that isn't the packet of its tag, that is entered in the
    /// history and in the hub's journal, as what is answered is; any other refusal, and `NoMemory`,
    /// changes nothing.
    fn deliver(&mut self, hub: &mut Hub, position: u64) -> Result<Receipt, Fault>
        ensures opening { opening self.new ≡ opening self.old }
        ensures failures { Counts false (failures self.old) (failures self.new) result }
        ensures ends { Delivers (name (opening self.old)) position
            (slice_get hub.old.net.frames position) hub.old.net hub.new.net (log self.old)
            (log self.new) result }
        ensures why { IfErr result
            (RefusedAt (rules (opening self.old)) (log self.old)
            (slice_get hub.old.net.frames position)) }
        ensures replay { Replays (rules (opening self.new)) (log self.new) };

    /// Has the node do this, whose frames go to the hub.
    ///
    /// `NodeOff`, it isn't on; the node's own. A save that fails is entered in the history, as what is
    /// answered is; any other refusal, and `NoMemory`, changes nothing.
    fn post(&mut self, hub: &mut Hub, command: Self::Command) -> Result<Receipt, Fault>
        ensures opening { opening self.new ≡ opening self.old }
        ensures failures { Counts false (failures self.old) (failures self.new) result }
        ensures ends { Commands (rules (opening self.old)) (asks command)
            (name (opening self.old)) hub.old.net hub.new.net (log self.old) (log self.new) result }
        ensures why { IfErr result
            (RefusedAfter (rules (opening self.old)) (log self.old) (asks command)) }
        ensures replay { Replays (rules (opening self.new)) (log self.new) };
}
