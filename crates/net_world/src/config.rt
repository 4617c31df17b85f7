//! What a world is made with.

/// So many servers, and a mirror of the client's states or none.
#[derive(Clone, Copy, Debug, PartialEq, Eq)]
pub struct Config {
    pub servers: u32,
    pub mirror: bool,
}
