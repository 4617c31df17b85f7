//! What a node is, whichever core it has: a server, the client or a mirror. It saves before it changes, and is
//! down once a save has failed; it has power, or only its notes; and a core that accepts packets hears frames.
//!
//! ```text
//! let mut durable = Durable::new(notes);
//! durable.save(bytes)?;                   // `SaveFault`, and it is down
//!
//! let mut hearer = Hearer { core, pieces: Assembly::new(alloc) };
//! let outs = hearer.deliver(frame)?;      // what the core answers to the packet, or nothing yet
//!
//! let core = power.core();                // where it is on
//! let outs = power.step(input)?;          // `NodeOff` where it isn't
//! power.cut_in(landed, input)?;           // within the save of that step: `NoSave` where it makes none
//! power.cut()?;
//! power.restart(alloc, seed)?;
//! ```
//!
//! Begin with `power`; `node_core` says what a core is, and `packet_core` what one is that accepts packets. In
//! `specs/`, `Steps` says how a step of a core ends, `Hearers` what it hears, and `Kinds` how a node loses its
//! power and is started again.
#![tactic(auto)]

mod durable;
mod hearer;
mod node_core;
mod packet_core;
mod power;

pub use durable::Durable;
pub use hearer::Hearer;
pub use node_core::NodeCore;
pub use packet_core::PacketCore;
pub use power::Power;
