//! The threads of a fleet: a client and its servers over disks in memory, which begin a run, write, are
//! cut off and started again, and are checked.
//!
//! ```text
//! let Opened { nodes, posts, hands } = open(alloc, 2, 4)?;
//! let plan = Plan { workers: 4, write, read };
//! let ran = run_threads(rt, alloc, &nodes, posts, hands, plan, &mut trigger, &OpenGate)?;
//! ```
//!
//! The calling thread has the client begin the run, trigger it and verify it (`errand`), one thread
//! delivers the frames (`post`), and a thread for each worker writes (`crew`). Each waits for the others
//! by asking over and over; each takes one lock at a time, but for a node's and then the hub's.
//!
//! ```text
//! let done = run_worker(rt, alloc, &cell, seat, &files, &OpenGate);
//! let reports = check_jobs(rt, alloc, tasks, 4)?;
//! ```
//!
//! A worker writes at a server of yours until no job has a write any more (`worker`). Checks of many
//! files go on side by side (`parallel`): each task is checked as `recheck::check_disk` does, and its
//! report stands at its place, whatever the number of threads.
#![tactic(auto)]

mod answer_status;
mod asking;
mod block;
mod checks;
mod crew;
mod cut;
mod errand;
mod fault;
mod flags;
mod gate;
mod lock;
mod nodes;
mod parallel;
mod post;
mod slot;
mod task;
mod threads;
mod trigger;
mod turn;
mod untold_end;
mod worker;
mod write_queue;

pub use crew::WorkerSeat;
pub use errand::Plan;
pub use fault::FleetFault;
pub use gate::{Gate, OpenGate, TURNS};
pub use nodes::{Client, Nodes, OpenFleet, Server, add, open};
pub use parallel::check_jobs;
pub use post::run_post;
pub use task::CheckTask;
pub use threads::{FleetEnd, run_threads};
pub use trigger::Trigger;
pub use worker::run_worker;
