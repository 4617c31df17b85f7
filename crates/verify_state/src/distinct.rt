//! Whether no write stands twice in a list of completions.

ghost use Rattle.std.specs.Prelude.{◌≡◌, ◌≤◌, ◌↔◌, true, length};
ghost use Rattle.std.specs.List.Sorted.{IsStrictlyIncreasing};
ghost use Rattle.fc_base.specs.Counted.{is_distinct};

use fc_base::{MAX_WINDOW, Seq};

/// The most completions that a list has: two of the widest windows.
pub(crate) const MAX_COMPLETIONS: usize = 2 * MAX_WINDOW as usize;

/// Whether no write stands in the list twice. The numbers are sorted on the stack, where equal ones
/// come to stand side by side.
pub(crate) fn is_distinct(list: &[Seq]) -> bool
    requires { length list.now ≤ MAX_COMPLETIONS }
    ensures { result ≡ is_distinct list.now }
{
    let mut room = [0; MAX_COMPLETIONS];
    let numbers = &mut room[..list.len()];
    copy_numbers(list, numbers);
    numbers.sort_unstable();
    rise(numbers)
}

fn copy_numbers(list: &[Seq], numbers: &mut [u64])
    requires { length numbers.old ≡ length list.now }
    ensures { numbers.new ≡ list.now }
{
    for (i, number) in numbers.iter_mut().enumerate() {
        let seq = list[i];
        *number = seq.0;
    }
}

/// Whether each number is below the next one.
fn rise(numbers: &[u64]) -> bool
    ensures { (result ≡ true) ↔ IsStrictlyIncreasing numbers.now }
{
    for i in 1..numbers.len() {
        if numbers[i - 1] >= numbers[i] {
            return false;
        }
    }
    true
}
