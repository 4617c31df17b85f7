//! Instances of the laws of filters that are cut, and of what a server's check tells. The functions
//! have nothing to run.

ghost use Rattle.uses.specs.ClientCut.{ClientIsCut, RenewalIsCut};
ghost use Rattle.uses.specs.MirrorCut.{MirrorIsCut};
ghost use Rattle.uses.specs.ServerCut.{ServerIsCut};
ghost use Rattle.uses.specs.ServerLoss.{AllSurvive, OneIsLost};

use filters::{cut_law, mirror_cut_law, server_cut_law, server_loss_law};
use messages::{frames_are_read_back, lengths_are_bounded};

/// A client begins a run and is sent a state, and is cut: within the save of that, and behind it.
/// And one that lost its note begins anew, and is cut within the save of its new note.
pub fn examples_of_cut_clients()
    ensures lives { ClientIsCut }
    ensures renewals { RenewalIsCut }
{
    lengths_are_bounded();
    frames_are_read_back();
    client_core::notes_are_read_back();
    cut_law();
}

/// A mirror is granted its generation and is sent a state, and is cut: within the save of that, and
/// behind it.
pub fn examples_of_cut_mirrors()
    ensures { MirrorIsCut }
{
    lengths_are_bounded();
    frames_are_read_back();
    mirror_core::notes_are_read_back();
    mirror_cut_law();
}

/// A server starts a run, and is cut: within the save of its Start, and within its first order.
pub fn examples_of_cut_servers()
    ensures { ServerIsCut }
{
    frames_are_read_back();
    server_cut_law();
}

/// A server is cut with a write in flight, and checks its two blocks by the state that was taken
/// before: each write survives that the state counts; or one of them is lost.
pub fn examples_of_checks()
    ensures survive { AllSurvive }
    ensures lost { OneIsLost 0 }
{
    server_loss_law();
}
