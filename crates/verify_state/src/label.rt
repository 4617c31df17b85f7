//! The name under which a state is stored.

ghost use Rattle.std.specs.Prelude.{◌≡◌, IfOk, string_bytes};
ghost use Rattle.verify_state.specs.Label.{label};

use fc_base::Key;
use std::alloc::{AllocError, Global};

/// The label of the state of this job, whose name in the job file is `name`.
pub(crate) fn label(alloc: Global, key: &Key, name: &str) -> Result<String, AllocError>
    ensures { IfOk result (λ text. string_bytes text ≡ label key.now name.now) }
{
    let mut text = String::new(alloc);
    write!(text, "s{}-{name}-{}-verify.state", key.server.0, key.job.0)?;
    Ok(text)
}
