//! Which writes a list of completions counts.

ghost use Rattle.std.specs.Prelude.{◌≡◌};
ghost use Rattle.fc_base.specs.Counted.{is_counted as counts};

use crate::numbers::Seq;

/// Whether write `seq` counts as completed, by the last completions of a job, its window, and the
/// number of writes that were issued. A write that is not in the list counts where it is so old
/// that the window would have held the issue of a later one.
///
/// This is fio's rule for a verify state: the number of completions, and the last so many.
pub fn is_counted(completions: &[Seq], window: u32, issued: u64, seq: Seq) -> bool
    ensures { result ≡ counts window issued completions.now seq }
{
    let window = u64::from(window);
    let is_old = window < issued && seq.0 < issued - window;
    is_old || completions.contains(&seq)
}
