//! The seats of a server.

ghost use Rattle.std.specs.Prelude.{◌≡◌, ◌≤◌, IfOk};
ghost use Rattle.cells.specs.Seated.{new_seats};

use super::seat::Seat;
use fc_base::{MAX_SEATS, ServerNo};
use std::alloc::{AllocError, Global};

/// How many seats a server has at most.
pub(crate) const SEATS: usize = MAX_SEATS as usize;

/// So many seats of a server, which have applied nothing.
pub(crate) fn new_seats(alloc: Global, me: ServerNo, count: u32) -> Result<Vec<Seat>, AllocError>
    requires { count ≤ MAX_SEATS }
    ensures { IfOk result (λ seats. seats.items ≡ new_seats me count) }
{
    let mut seats = Vec::with_capacity(alloc, count as usize)?;
    for number in 0..count {
        seats.push(Seat::new(me, number))?;
    }
    Ok(seats)
}
