//! The ranges of a state's fields.

ghost use Rattle.std.specs.Prelude.{◌≡◌, ◌<◌, ◌^◌, length};
ghost use Rattle.std.specs.List.{AllByRecursion};
ghost use Rattle.verify_state.specs.State.{has_counts};

use fc_base::{Key, MAX_WRITES};

pub(crate) fn has_counts(window: u32, issued: u64, count: u64) -> bool
    ensures { result ≡ has_counts window issued count }
{
    issued <= MAX_WRITES && count <= 2 * u64::from(window)
}

/// A number is below 2^64, which a clause doesn't know of a field.
pub(crate) fn in_range(number: u64) -> u64
    ensures value { result ≡ number }
    ensures range { result < 2 ^ 64 }
{
    number
}

/// So is the number of a run.
pub(crate) fn run_in_range(key: &Key)
    ensures { key.now.run < 2 ^ 64 }
{
    let _run = in_range(key.run.0);
}

/// So are four words.
pub(crate) fn are_in_range(words: &[u64; 4])
    ensures len { length words.now ≡ 4 }
    ensures range { AllByRecursion (λ word. word < 2 ^ 64) words.now }
{
    let _words = (
        in_range(words[0]),
        in_range(words[1]),
        in_range(words[2]),
        in_range(words[3]),
    );
}
