//! A core over packets: that of a server, or of the client.

ghost use Rattle.std.specs.Prelude.{◌≡◌, List};
ghost use Rattle.node.specs.Steps.{Ends};
ghost use Rattle.node.specs.Hearers.{CoreKind, Laws};

use fc_base::Fault;
use messages::{Packet, Piece};

/// A core over packets.
pub trait PacketCore {
    /// What it answers and sends.
    type Outs;

    /// What it was opened with.
    ghost Opening: { Type 0 };

    /// What comes to it.
    ghost Input: { Type 0 };

    /// The entries of its list.
    ghost Entry: { Type 0 };

    /// What it adds to its note.
    ghost Addition: { Type 0 };

    /// Its kind, where it was opened so.
    ghost kind: { Opening → CoreKind Self Input Entry Addition Self.Outs };

    /// Whether it is on: no save has failed since it was started.
    fn is_up(&self) -> bool
        ensures { (opening : Opening) (past : List Entry) →
            (kind opening).core.StandsFor past self.now →
            result ≡ (kind opening).core.words.is_up past };

    /// Whether a piece is for it.
    fn is_for(&self, piece: &Piece) -> bool
        ensures { (opening : Opening) (past : List Entry) →
            (kind opening).core.StandsFor past self.now →
            result ≡ (kind opening).is_for piece.now };

    /// Accepts a packet, or refuses it.
    fn accept(&mut self, packet: Packet) -> Result<Self::Outs, Fault>
        ensures { (opening : Opening) (past : List Entry) →
            (kind opening).core.StandsFor past self.old →
            Ends (kind opening).core past
            ((kind opening).delivers packet) self.old self.new result };

    /// What it answers to a piece that is kept: nothing.
    fn nothing(&self) -> Self::Outs
        ensures { (opening : Opening) → result ≡ (kind opening).nothing };

    /// Its kind keeps the laws of hearing.
    ghost keeps_laws: { (opening : Opening) → Laws (kind opening) };
}
