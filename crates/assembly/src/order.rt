//! The order of all events, and how far each node was followed.

ghost use Rattle.std.specs.Prelude.{◌≡◌, ◌+◌, ◌<◌, ◌≤◌, ◌^◌, ◌++◌, ◌∷◌, [], List, length, reverse, IfErr, OnOk};
ghost use Rattle.cells.specs.declared.entry.HistoryEntry.{HistoryEntry as Event};
ghost use Rattle.assembly.specs.Marks.{mark_of_line};
ghost use Rattle.assembly.specs.declared.fault.AssembleFault.TheVariants.{Unlike, NoMemory};
ghost use Rattle.assembly.specs.Order.{nothing_followed, next_of, with_next, IsPassed, IsStopped, IsTold, IsUntold};

use crate::fault::AssembleFault;
use crate::law::histories_rise;
use crate::marks::{is_marked, is_told_by};
use crate::place::Place;
use cells::History;
use messages::{Hub, Line, MAX_NODES, Node};
use std::alloc::Global;
use std::marker::Model;

/// The events so far, the oldest first, and for each node the place from which it is to be followed. The
/// mirror never has a history.
#[derive(Drop)]
pub(crate) struct Order {
    places: Vec<Place>,
    next: [u64; MAX_NODES],
}

impl Model for Order {
    ghost use Rattle.std.specs.Prelude.{◌≡◌, length};
    ghost use Rattle.assembly.specs.declared.fault.AssembleFault.TheVariants.{Unlike, NoMemory};
    ghost use Rattle.messages.specs.declared.limits.TheConstants.{MAX_NODES};
    ghost use Rattle.assembly.specs.Order.{Followed};

    ghost Value = { Followed };

    ghost view = { λ o. record { places = o.places.items; next = o.next } };

    ghost invariant = { λ o. length o.next ≡ MAX_NODES };
}

impl Order {
    /// No events.
    pub fn new(alloc: Global) -> Order
        ensures { result ≡ nothing_followed }
    {
        Order {
            places: Vec::new(alloc),
            next: [0; MAX_NODES],
        }
    }

    /// The events.
    pub fn into_places(self) -> Vec<Place>
        ensures { result.items ≡ self.places }
    {
        self.places
    }

    /// Adds the events of a node that stand, from where it is to be followed to before this place. An
    /// event among them that took or sent a frame is `Unlike`.
    pub fn pass(&mut self, node: &Node, history: &History, to: u64) -> Result<(), AssembleFault>
        requires rises { next_of self.old.next node.now ≤ to }
        requires within { to ≤ length history.now.items }
        ensures passed { (h : List Event) → history.now.items ≡ reverse h →
            OnOk result (IsPassed node.now h
            (next_of self.old.next node.now) to self.old.places self.new.places) }
        ensures next { self.new.next ≡ self.old.next }
        ensures stopped { (h : List Event) → history.now.items ≡ reverse h →
            IfErr result (IsStopped node.now h (next_of self.old.next node.now) to) }
    {
        histories_rise();
        for at in self.next_of(node)..to {
            if history.is_quiet(at as usize) {
                self.add(*node, at)?;
                continue;
            }
            let lent = history.at(at as usize);
            if is_marked(lent.as_entry()) {
                return Err(AssembleFault::Unlike { node: *node, at });
            }
            // It is left out.
        }
        Ok(())
    }

    /// Adds the events of a node up to that of an entry of the journal, before which so many frames were
    /// sent. Where the entry's event isn't the next that took or sent frames, that is `Unlike`.
    pub fn tell(
        &mut self,
        hub: &Hub,
        before: u64,
        line: &Line,
        history: &History,
    ) -> Result<(), AssembleFault>
        requires within { next_of self.old.next line.now.node ≤ length history.now.items }
        requires there { before + line.now.sent ≤ length hub.now.net.frames }
        requires fits { length hub.now.net.frames < 2 ^ 64 }
        ensures told { (h : List Event) → history.now.items ≡ reverse h →
            OnOk result (IsTold line.now.node h
            (mark_of_line hub.now.net.frames before line.now) self.old self.new) }
        ensures untold { (h : List Event) → history.now.items ≡ reverse h →
            IfErr result (IsUntold line.now.node h (next_of self.old.next line.now.node)
            (mark_of_line hub.now.net.frames before line.now)) }
    {
        histories_rise();
        let at = line.at;
        if at < self.next_of(&line.node) {
            return Err(unlike(line));
        }
        let end = at.min(history.len() as u64);
        if let Err(fault) = self.pass(&line.node, history, end) {
            return Err(fault);
        }
        let Some(lent) = history.get(at as usize) else {
            return Err(unlike(line));
        };
        if !is_told_by(hub, before, line, lent.as_entry()) {
            return Err(unlike(line));
        }
        self.add(line.node, at)?;
        self.set_next(&line.node, at + 1);
        Ok(())
    }

    /// Adds an event.
    fn add(&mut self, node: Node, at: u64) -> Result<(), AssembleFault>
        ensures places { OnOk result
            (self.new.places ≡ self.old.places ++ record { node = node; at = at } ∷ []) }
        ensures next { self.new.next ≡ self.old.next }
        ensures memory { IfErr result (λ fault. fault ≡ NoMemory) }
    {
        self.places.push(Place { node, at })?;
        Ok(())
    }

    /// The place from which a node is to be followed; 0 where it is none of the ten.
    fn next_of(&self, node: &Node) -> u64
        ensures { result ≡ next_of self.now.next node.now }
    {
        if node.is_node() {
            self.next[node.number() as usize]
        } else {
            0
        }
    }

    /// From now on a node that is one of the ten is to be followed from this place.
    fn set_next(&mut self, node: &Node, at: u64)
        ensures places { self.new.places ≡ self.old.places }
        ensures next { self.new.next ≡ with_next self.old.next node.now at }
    {
        if node.is_node() {
            self.next[node.number() as usize] = at;
        }
    }
}

/// The node of an entry differs from the journal at the entry's place.
fn unlike(line: &Line) -> AssembleFault
    ensures { result ≡ Unlike line.now.node line.now.at }
{
    AssembleFault::Unlike {
        node: line.node,
        at: line.at,
    }
}
