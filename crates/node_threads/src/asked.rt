//! What the client of a fleet was asked for.

ghost use Rattle.std.specs.Prelude.{◌≡◌, IsTrue, Some, OnOk, slice_get};
ghost use Rattle.node_threads.specs.Asked.{IsAsked, is_frame, asked_of_client, errand};

use cells::{ClientRequest, History, NodeInput};
use fc_base::RunNo;
use fleet_threads::{Client, FleetFault};
use messages::Act;

/// How many requests an errand has.
const REQUESTS: usize = 3;

/// Looks that a client was asked for this and nothing more: to begin the run by the text `write`, to
/// trigger it with a cut, and to verify it by the text `read`. `OtherErrand`: it was asked for something else.
pub(crate) fn look_for_errand(
    client: &Client,
    run: RunNo,
    write: &[u8],
    read: &[u8],
) -> Result<(), FleetFault>
    ensures { OnOk result (IsAsked client.now write.now read.now) }
{
    if is_errand(client.history(), run, write, read) {
        Ok(())
    } else {
        Err(FleetFault::OtherErrand)
    }
}

/// Whether this is the history of a client that was asked for just that.
fn is_errand(history: &History, run: RunNo, write: &[u8], read: &[u8]) -> bool
    ensures { IsTrue result → asked_of_client history.now.items ≡ errand run write.now read.now }
{
    let mut done = 0;
    for at in 0..history.len() {
        let entry = history.at(at);
        let came = &entry.as_entry().came;
        if is_frame(came) {
            continue;
        }
        if !is_next(done, came, run, write, read) {
            return false;
        }
        done += 1;
    }
    done == REQUESTS
}

/// Whether a frame has come, which nobody asked for.
fn is_frame(came: &NodeInput) -> bool
    ensures { result ≡ is_frame came.now }
{
    matches!(came, NodeInput::Frame(_))
}

/// Whether this is the next request of the errand, of which so many are done.
fn is_next(done: usize, came: &NodeInput, run: RunNo, write: &[u8], read: &[u8]) -> bool
    ensures { IsTrue result → slice_get (errand run write.now read.now) done ≡ Some came.now }
{
    match (done, came) {
        (0, NodeInput::Request(ClientRequest::Begin(text))) => text.as_slice() == write,
        (1, NodeInput::Request(ClientRequest::Trigger(asked, Act::Cut))) => *asked == run,
        (2, NodeInput::Request(ClientRequest::Verify(asked, text))) => {
            *asked == run && text.as_slice() == read
        }
        _ => false,
    }
}
