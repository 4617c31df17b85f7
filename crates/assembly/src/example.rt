//! Nodes that ran, which can be followed by hand. The function has nothing to run.

ghost use Rattle.assembly.specs.Examples.{AgreeWithIt, AreToldSo};

/// A client and a server that agree with a journal, and the order in which it has them told.
pub fn followed_by_hand()
    ensures agree { AgreeWithIt }
    ensures order { AreToldSo }
{}
