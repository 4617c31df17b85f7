//! What holds of lists of numbers, and an example. The functions have nothing to run.

ghost use Rattle.std.specs.Prelude.{◌≡◌, [], ◌∷◌};
ghost use Rattle.fc_base.specs.Counted.{counted, uncounted};
ghost use Rattle.fc_base.specs.Laws.{CountsThem, HasJustThem};

/// The numbers below a bound are as many as it says, and just those.
pub fn numbers_law()
    ensures count { CountsThem }
    ensures members { HasJustThem }
{}

/// Five writes at window 3 complete in the order 2, 1, 0, 3, 4. The list of all counts all of them,
/// and so does the list without the two that are too old to be asked for; one without write 2 loses
/// just that write, though it has the last three completions.
pub fn examples()
    ensures all { counted 3 5 (2 ∷ 1 ∷ 0 ∷ 3 ∷ 4 ∷ []) ≡ 0 ∷ 1 ∷ 2 ∷ 3 ∷ 4 ∷ [] }
    ensures enough { counted 3 5 (2 ∷ 3 ∷ 4 ∷ []) ≡ 0 ∷ 1 ∷ 2 ∷ 3 ∷ 4 ∷ [] }
    ensures short { counted 3 5 (0 ∷ 3 ∷ 4 ∷ []) ≡ 0 ∷ 1 ∷ 3 ∷ 4 ∷ [] }
    ensures lost { uncounted 3 5 (0 ∷ 3 ∷ 4 ∷ []) ≡ 2 ∷ [] }
{}
