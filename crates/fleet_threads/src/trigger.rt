//! What pulls the trigger of a run.

/// Tells whether the trigger of a run is pulled. Only the calling thread asks, from when the workers
/// start until it is pulled or all of them are done.
pub trait Trigger {
    /// Whether it is pulled.
    fn pulled(&mut self) -> bool;
}
