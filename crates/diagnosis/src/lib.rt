//! What a faulty block holds: nothing yet, an older write, a write of another run or another block,
//! parts of several, or other bytes. A check tells that a block is a fault; this crate tells what
//! became of it, by what its sectors say.
//!
//! ```text
//! if check.wants(block) {
//!     match diagnose(check.expected(), block, &bytes) {
//!         Holds::Sound => {}
//!         Holds::Lost(seq) => println!(rt; "block {block} holds the older write {}", seq.0)?,
//!         ..
//!     }
//! }
//! ```
//!
//! Begin with `holds` and `specs/Kinds.antt`, which says what each kind is; `specs/Pieces.antt`
//! says what a sector holds.
#![tactic(auto)]

mod content;
mod damage;
mod diagnosing;
mod difference;
mod extent;
mod holds;
mod law;
mod limits;
mod piece;
mod pieces;
mod stamp;
mod whole;

pub use content::{Content, content_of};
pub use diagnosing::diagnose;
pub use difference::{Difference, FEW_BITS, FEW_BYTES, compare_write};
pub use extent::{Extent, extent_at};
pub use holds::Holds;
pub use law::{
    each_block_holds_one_kind, named_writes_are_held, other_writes_are_far,
    own_writes_are_what_they_are_told, pieces_say, sectors_say_one_thing,
};
pub use piece::Piece;
pub use pieces::piece_at;
pub use stamp::{Stamp, Write};
