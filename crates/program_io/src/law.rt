//! What holds of all bounded reads. The function has nothing to run.

ghost use Rattle.program_io.specs.Input.{ReadsAreFronts, ShortReadsAreWhole};

/// Fewer bytes than may be read are the whole input, and there are never more than there are.
pub fn read_law()
    ensures whole { ShortReadsAreWhole }
    ensures fronts { ReadsAreFronts }
{}
