//! What comes to a client.

use fc_base::RunNo;
use messages::{Act, Frame};

/// What comes to a client: what its caller asks, and frames of its servers and its mirror. A text is the caller's.
#[derive(Drop)]
pub enum Input<'t> {
    /// It is asked to begin a run with this job file.
    Begin(&'t [u8]),
    /// It is asked to trigger the verify states of a run, and then this.
    Trigger(RunNo, Act),
    /// It is asked to issue no more writes in a run.
    Stop(RunNo),
    /// It is asked to check the files of a run by this job file.
    Verify(RunNo, &'t [u8]),
    /// It is asked to ask again for all that isn't answered.
    Tick,
    /// A frame is delivered.
    Deliver(Frame),
}
