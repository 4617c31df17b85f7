//! Lines as they are printed.

ghost use Rattle.std.specs.Prelude.{Some};

use messages::{FrameLook, Node};
use std::fmt;

/// `bad line N`.
#[derive(Clone, Copy, Drop)]
pub(crate) struct BadLine(pub(crate) u64);

impl fmt::Display for BadLine {
    ghost use Rattle.net_script.specs.Printed.{bad_line};

    ghost output = { λ line. Some (bad_line line.0) };

    fn fmt<W: fmt::Write>(&self, f: &mut fmt::Formatter<W>) -> fmt::Result {
        write!(f, "bad line {}", self.0)
    }
}

/// A node: `client`, `mirror`, or a server's number.
#[derive(Clone, Copy, Drop)]
pub(crate) struct NodeWord(pub(crate) Node);

impl fmt::Display for NodeWord {
    ghost use Rattle.net_script.specs.Printed.{node_word};

    ghost output = { λ word. Some (node_word word.0) };

    fn fmt<W: fmt::Write>(&self, f: &mut fmt::Formatter<W>) -> fmt::Result {
        match self.0 {
            Node::Server(server) => write!(f, "{}", server.0),
            Node::Client => write!(f, "client"),
            Node::Mirror => write!(f, "mirror"),
        }
    }
}

/// `sent I FROM TO KIND LENGTH`.
#[derive(Clone, Copy, Drop)]
pub(crate) struct FrameLine {
    pub(crate) number: u64,
    pub(crate) look: FrameLook,
    pub(crate) len: usize,
}

impl fmt::Display for FrameLine {
    ghost use Rattle.net_script.specs.Printed.{frame_line};

    ghost output = { λ line. Some (frame_line line.number line.look line.len) };

    fn fmt<W: fmt::Write>(&self, f: &mut fmt::Formatter<W>) -> fmt::Result {
        write!(
            f,
            "sent {} {} {} {} {}",
            self.number,
            NodeWord(self.look.from),
            NodeWord(self.look.to),
            self.look.kind.name(),
            self.len,
        )
    }
}

/// `act cut NODE`.
#[derive(Clone, Copy, Drop)]
pub(crate) struct CutLine(pub(crate) Node);

impl fmt::Display for CutLine {
    ghost use Rattle.net_script.specs.Printed.{cut_line};

    ghost output = { λ line. Some (cut_line line.0) };

    fn fmt<W: fmt::Write>(&self, f: &mut fmt::Formatter<W>) -> fmt::Result {
        write!(f, "act cut {}", NodeWord(self.0))
    }
}
