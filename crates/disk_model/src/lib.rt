//! Disks and durable notes: what they promise, models that keep it, and models that fail.
//!
//! ```text
//! let mut disk = MemDisk::new(alloc);
//! disk.power_on(1);
//! disk.write(1, block, &bytes)?;    // a write of another epoch is refused as `Off`
//! disk.cut();
//! disk.power_on(2);
//! disk.read(block, &mut bytes)?;
//! ```
//!
//! Begin with `disk` and `notes`, whose traits are the laws; `specs/File.antt` says what a file is.
#![tactic(auto)]

mod block;
mod countdown;
mod disk;
mod fault_disk;
mod fault_notes;
mod law;
mod lent;
mod mem_disk;
mod mem_notes;
mod notes;
mod picks;
mod run;
mod save_outcome;
mod sectors;
mod singles;

pub use block::is_block;
pub use disk::Disk;
pub use fault_disk::FaultDisk;
pub use fault_notes::FaultNotes;
pub use law::{block_law, examples, save_law, sector_law};
pub use mem_disk::MemDisk;
pub use mem_notes::MemNotes;
pub use notes::Notes;
pub use save_outcome::SaveOutcome;
