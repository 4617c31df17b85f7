//! The limits of a live run, as numbers: what the pages tell is what the code has.

ghost use Rattle.std.specs.Prelude.{◌≡◌};
ghost use Rattle.fleet_threads.specs.declared.gate.TheConstants.{TURNS};
ghost use Rattle.commands.specs.declared.live.TheConstants.{MAX_INPUT};

/// Each limit of a live run beside those of its job files is the number that the pages have for it: how
/// many bytes its input has at the most, and how often a worker asks its gate for one write. Other
/// contracts and bodies name them, and would move with them. Nothing runs.
pub fn limits_are_as_documented()
    ensures input { MAX_INPUT ≡ 32770 }
    ensures turns { TURNS ≡ 1000000 }
{}
