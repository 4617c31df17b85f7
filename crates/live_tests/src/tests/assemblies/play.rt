//! What a play is: what happens, and what is then handed in.

/// What happens. Servers are named by their number, and asked from their one seat; a frame comes to a node
/// that waits longest for it. What happens elsewhere goes to another hub, and rivals are clients there: one
/// begins another run, or the same, whose first frame comes to the first server's twin.
#[derive(Clone, Copy)]
pub enum Step {
    Begin,
    Tick,
    ToClient,
    ToServer(u32),
    CutClient,
    RestartClient,
    Issue(u32),
    Done(u32),
    Cut(u32),
    Restart(u32),
    TickElsewhere,
    RivalBegins,
    RivalBeginsAlike,
    ToTwinElsewhere,
    /// A frame of the hub elsewhere comes to the client.
    ToClientElsewhere(u64),
    /// An entry is put into the journal, of the node with this number, at this place: it took this frame.
    Forged(u32, u64, u64),
}

/// What is handed in: the hub, or the one elsewhere; from which place to which the servers, of which 0 and 1
/// played, and 2 and 3 are their twins; and the place of the seat.
#[derive(Clone, Copy)]
pub struct Handed {
    pub elsewhere: bool,
    pub servers: (usize, usize),
    pub seat: usize,
}

/// How many servers the client has; at which of its saves the first server's notes fail, and what they
/// leave; whether they were used before; what happens, and what is then handed in.
#[derive(Clone, Copy)]
pub struct Play {
    pub servers: u32,
    pub failing: (u64, bool),
    pub is_used: bool,
    pub steps: &'static [Step],
    pub handed: Handed,
}
