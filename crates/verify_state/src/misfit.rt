//! Whether a state is one of a job that is to be checked.

ghost use Rattle.std.specs.Prelude.{◌≡◌};
ghost use Rattle.verify_state.specs.Misfit.{is_of_job, Fits};

use crate::same::{are_equal, is_of_kind, is_of_region, is_same_key};
use crate::state::VerifyState;
use fc_base::{Fault, JobRecord, Key};
use write_order::place_of;

/// Whether the state fits this key and this job, or the first of key, job and place that doesn't.
#[tactic(auto, unfolding(crate::specs::Misfit::misfit))]
pub(crate) fn check_fit(state: &VerifyState, key: &Key, rec: &JobRecord) -> Result<(), Fault>
    ensures { Fits state.now key.now rec.now result }
{
    if !is_same_key(&state.key(), key) {
        return Err(Fault::OtherKey);
    }
    if !is_of_job(state, rec) {
        return Err(Fault::OtherJob);
    }
    if !are_equal(&state.place(), &place_of(rec, state.issued())) {
        return Err(Fault::OtherPlace);
    }
    Ok(())
}

fn is_of_job(state: &VerifyState, rec: &JobRecord) -> bool
    ensures { result ≡ is_of_job state.now rec.now }
{
    is_of_kind(&state.rec(), rec)
        && is_of_region(&state.rec(), rec)
        && state.issued() <= u64::from(rec.total())
}
