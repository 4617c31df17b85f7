//! The room for the next write.

ghost use Rattle.std.specs.Prelude.{◌≡◌, nat_le};

/// Whether the next write may be issued, and if not, why.
#[derive(Clone, Copy, Debug, PartialEq, Eq)]
pub enum Room {
    /// The next write may be issued.
    Open,
    /// As many writes are in flight as may be (fio's `iodepth`).
    Depth,
    /// A write that lies a whole window below the next one hasn't completed (`x_window`).
    Held,
}

impl Room {
    ghost use Rattle.engine.specs.Kept.{room_by};

    /// The room by how many writes are in flight, and whether one of them is held. `Depth` is
    /// answered before `Held`.
    pub(crate) fn by(in_flight: u64, depth: u64, is_held: bool) -> Room
        ensures { result ≡ room_by (nat_le depth in_flight) is_held }
    {
        if in_flight >= depth {
            Room::Depth
        } else if is_held {
            Room::Held
        } else {
            Room::Open
        }
    }
}
