//! What holds of states and of their bytes, and an example. The functions have nothing to run.

ghost use Rattle.verify_state.specs.Laws.{ReadsBack, IsSpelled, SaysItsList, SaysAState, IsNoPrefix, FitAlike};
ghost use Rattle.std.specs.Prelude.{◌≡◌, true, false, [], ◌∷◌};
ghost use Rattle.fc_base.specs.Counted.{counted, is_possible};
ghost use Rattle.fc_base.specs.Marks.{counted_by};

/// Each state has one spelling, which is of layout 2: it is read back from it, and bytes of that
/// layout that are read without a fault are the spelling of the state that they say.
pub fn one_spelling()
    ensures reads_back { ReadsBack }
    ensures is_spelled { IsSpelled }
{}

/// What bytes without a fault say is a state, and those of layout 1 say the state of their list.
pub fn bytes_say_states()
    ensures says_a_state { SaysAState }
    ensures says_its_list { SaysItsList }
{}

/// No spelling of a state, of either layout, is a proper prefix of another: where a state's bytes
/// end is seen in them.
pub fn no_spelling_begins_another()
    ensures { IsNoPrefix }
{}

/// Two states that are the same fit the same keys and jobs, or are refused for the same reason.
pub fn same_states_fit_alike()
    ensures { FitAlike }
{}

/// Five writes at window 3: the floor is 2, so the three lowest bits and the whole list of
/// completions count the same. A list that leaves out a completion for which it has room is that of
/// no job.
#[tactic(auto, unfolding(fc_base::specs::Marks::is_marked))]
pub fn examples()
    ensures alike { counted_by 3 5 (7 ∷ 0 ∷ 0 ∷ 0 ∷ []) ≡ counted 3 5 (2 ∷ 1 ∷ 0 ∷ 3 ∷ 4 ∷ []) }
    ensures possible { is_possible 3 3 5 (2 ∷ 1 ∷ 0 ∷ 3 ∷ 4 ∷ []) ≡ true }
    ensures impossible { is_possible 3 3 5 (0 ∷ 3 ∷ 4 ∷ []) ≡ false }
{}
