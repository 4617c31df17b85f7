//! One list of events out of nodes that ran under locks: each node's events in its own order, and each
//! frame taken behind the event that sent it. The list is a trace of the world, and so the world's verdict
//! holds of the nodes.
//!
//! ```text
//! let assembled = assemble(alloc, &hub, &client, &servers, &seats)?;
//! for place in &assembled.order { .. }   // the oldest first: a node, and a place in its history
//! ```
//!
//! Begin with `assemble`; in `specs/`, with `Agrees`, which says when a node agrees with the journal, and
//! `Unlike`, which says what is told of one that doesn't. The laws, which have nothing to run, are in `law`:
//! in `specs/`, `Names` says what the one list is, and `Orders` in which order it can be told.
#![tactic(auto)]

mod example;
mod fault;
mod law;
mod list;
mod marks;
mod opened;
mod order;
mod place;
mod told;

pub use example::followed_by_hand;
pub use fault::AssembleFault;
pub use law::{
    agreeing_nodes_are_a_trace, assembled_nodes_hold_one_state, histories_rise,
    merged_orders_are_merges, merges_name_a_trace,
};
pub use list::{Assembled, assemble};
pub use place::Place;
