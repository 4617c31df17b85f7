//! The frames that wait for each node.

ghost use Rattle.std.specs.Prelude.{◌≡◌, ◌+◌, ◌≤◌, ◌==◌, [], ◌∷◌, ◌++◌, length, filter, not, replicate, vec_len, vec_capacity, if◌then◌else◌, OnOk, Some, None, IsTrue};
ghost use Rattle.std.specs.List.Sorted.{IsStrictlyIncreasing};
ghost use Rattle.messages.specs.declared.limits.TheConstants.{MAX_NODES};
ghost use Rattle.messages.specs.Nodes.{node_number, is_node};
ghost use Rattle.messages.specs.KeptNetwork.{list_of, with_list, without_frame};

use crate::limits::{CLIENT_NUMBER, MAX_NODES, MIRROR_NUMBER};
use crate::line::Line;
use crate::node::Node;
use fc_base::MAX_SERVERS;
use std::alloc::{AllocError, Global};
use std::array;
use std::marker::Model;

/// A list of numbers for each node.
#[derive(Drop)]
pub(crate) struct Queues {
    lists: [Vec<u64>; MAX_NODES],
}

impl Model for Queues {
    ghost use Rattle.std.specs.Prelude.{◌≡◌, ◌-◌, ◌^◌, length, map, vec_len, vec_capacity};
    ghost use Rattle.messages.specs.declared.limits.TheConstants.{MAX_NODES};
    ghost use Rattle.messages.specs.KeptNetwork.{Queued, least};

    ghost Value = { Queued };

    ghost view = { λ q. record {
      lists = map (λ v. v.items) q.lists;
      more = least (2 ^ 64) (map (λ v. vec_capacity v - vec_len v) q.lists);
    } };

    ghost invariant = { λ q. length q.lists ≡ MAX_NODES };
}

impl Queues {
    /// Empty lists.
    pub fn new(alloc: Global) -> Queues
        ensures { result.lists ≡ replicate MAX_NODES [] }
    {
        Queues {
            lists: array::from_fn(|_| Vec::new(alloc)),
        }
    }

    /// The list of a node, which is empty where the node is none of the ten.
    pub fn of(&self, node: Node) -> &[u64]
        ensures { result.now ≡ list_of self.now.lists node }
    {
        match place_of(node) {
            Some(place) => &self.lists[place],
            None => &[],
        }
    }

    /// Makes room for so many more numbers in each list.
    pub fn reserve(&mut self, more: usize) -> Result<(), AllocError>
        ensures room { OnOk result (more ≤ self.new.more) }
        ensures same { self.new.lists ≡ self.old.lists }
    {
        for list in &mut self.lists {
            list.reserve(more)?;
        }
        Ok(())
    }

    /// Puts a number behind those of a node. There is room for it.
    pub fn push(&mut self, node: Node, number: u64)
        requires node { IsTrue (is_node node) }
        requires room { 1 ≤ self.old.more }
        ensures lists { self.new.lists
            ≡ with_list self.old.lists node (list_of self.old.lists node ++ number ∷ []) }
        ensures room { self.old.more ≤ self.new.more + 1 }
    {
        let list = &mut self.lists[node.number() as usize];
        list.push_reserved(number);
    }

    /// Takes the frame that an entry took, if it took one, out of the list of its node, where it is there.
    pub fn take(&mut self, line: &Line)
        requires { IsStrictlyIncreasing (list_of self.old.lists line.now.node) }
        ensures lists { self.new.lists ≡ without_frame self.old.lists line.now.node line.now.taken }
        ensures room { self.old.more ≤ self.new.more }
    {
        let Some(number) = line.taken else {
            return;
        };
        if let Some(place) = place_of(line.node) {
            take_out(&mut self.lists[place], number);
        }
    }
}

/// Which of the lists is a node's.
fn place_of(node: Node) -> Option<usize>
    ensures { result ≡ (if is_node node then Some (node_number node) else None) }
{
    match node {
        Node::Server(server) if server.0 < MAX_SERVERS => Some(server.0 as usize),
        Node::Server(_) => None,
        Node::Client => Some(CLIENT_NUMBER as usize),
        Node::Mirror => Some(MIRROR_NUMBER as usize),
    }
}

/// Takes a number out of an ascending list, where it is there.
fn take_out(list: &mut Vec<u64>, number: u64)
    requires { IsStrictlyIncreasing list.old.items }
    ensures items { list.new.items ≡ filter (λ k. not (number == k)) list.old.items }
    ensures len { vec_len list.new ≤ vec_len list.old }
    ensures capacity { vec_capacity list.new ≡ vec_capacity list.old }
{
    match list.as_slice().binary_search(&number) {
        Ok(place) => {
            let _ = list.remove(place);
        }
        Err(_) => {}
    }
}
