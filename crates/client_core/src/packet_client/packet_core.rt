//! A client to which packets come is a core over packets: with it, frames are heard.

ghost use Rattle.std.specs.Prelude.{◌≡◌};
ghost use Rattle.client_core.specs.Inputs.{PacketInput};
ghost use Rattle.client_core.specs.History.{Opening as ClientOpening, Entry as ClientEntry};
ghost use Rattle.client_core.specs.Saves.{Addition as ClientAddition};
ghost use Rattle.client_core.specs.Hearing.{is_piece_for};
ghost use Rattle.client_core.specs.HearingKind.{hearing_kind, hearing_laws};

use super::PacketClient;
use crate::refusal::is_server_of;
use disk_model::Notes;
use fc_base::Fault;
use messages::{Frames, Packet, Piece};
use node::PacketCore;

impl<N: Notes> PacketCore for PacketClient<N> {
    type Outs = Frames;

    ghost Opening = { ClientOpening };

    ghost Input = { PacketInput };

    ghost Entry = { ClientEntry };

    ghost Addition = { ClientAddition };

    ghost kind = { hearing_kind N.note };

    fn is_up(&self) -> bool {
        !self.durable.is_down()
    }

    fn is_for(&self, piece: &Piece) -> bool {
        is_piece_for(self.peers.servers.count(), piece)
    }

    fn accept(&mut self, packet: Packet) -> Result<Frames, Fault> {
        self.deliver(packet)
    }

    fn nothing(&self) -> Frames {
        Frames::new(self.alloc)
    }

    ghost keeps_laws = { hearing_laws N.note };
}

/// Whether the piece is for a client of so many servers: from one of them to it, of a kind that servers
/// send.
fn is_piece_for(servers: u32, piece: &Piece) -> bool
    ensures { result ≡ is_piece_for servers piece.now }
{
    piece.to().is_client()
        && (is_server_of(servers, piece.from()) && piece.tag().whole.is_of_server())
}
