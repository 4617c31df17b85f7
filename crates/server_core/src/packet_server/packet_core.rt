//! A server to which packets come is a core over packets: with it, frames are heard.

ghost use Rattle.std.specs.Prelude.{◌≡◌};
ghost use Rattle.server_core.specs.Inputs.{PacketInput};
ghost use Rattle.server_core.specs.History.{Opening as ServerOpening, Entry as ServerEntry};
ghost use Rattle.server_core.specs.Words.{Staged};
ghost use Rattle.server_core.specs.Hearing.{is_piece_for};
ghost use Rattle.server_core.specs.HearingKind.{hearing_kind, hearing_laws};

use super::PacketServer;
use crate::input::Input;
use crate::outs::Outs;
use disk_model::Notes;
use fc_base::{Fault, ServerNo};
use messages::{Frames, Packet, Piece};
use node::PacketCore;

impl<N: Notes> PacketCore for PacketServer<N> {
    type Outs = Outs;

    ghost Opening = { ServerOpening };

    ghost Input = { PacketInput };

    ghost Entry = { ServerEntry };

    ghost Addition = { Staged };

    ghost kind = { hearing_kind N.note };

    fn is_up(&self) -> bool {
        !self.durable.is_down()
    }

    fn is_for(&self, piece: &Piece) -> bool {
        is_piece_for(self.machine.me, piece)
    }

    fn accept(&mut self, packet: Packet) -> Result<Outs, Fault> {
        self.step(Input::Deliver(packet))
    }

    fn nothing(&self) -> Outs {
        Outs::sent(Frames::new(self.machine.alloc))
    }

    ghost keeps_laws = { hearing_laws N.note };
}

/// Whether the piece is from the client to the server with this number, of a kind that the client sends.
fn is_piece_for(me: ServerNo, piece: &Piece) -> bool
    ensures { result ≡ is_piece_for me piece.now }
{
    piece.from().is_client() && piece.to().is_server(me) && piece.tag().whole.is_of_client()
}
