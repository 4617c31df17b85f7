//! What is told of the writes that are carried out elsewhere.

ghost use Rattle.std.specs.Prelude.{◌≡◌, length};
ghost use Rattle.targets.specs.Notices.{IsNoticeIn, notice_of};

use fc_base::{Seq, split_u64};

/// How many bytes a notice has.
pub(crate) const NOTICE: usize = 16;

/// The numbers that say what is told.
const DONE: u64 = 1;

const FAILED: u64 = 2;

const TAKE: u64 = 3;

/// What is told of a write that was ordered, or that the state is to be taken.
#[derive(Clone, Copy, Debug, PartialEq, Eq)]
pub enum Notice {
    /// The write is done: the target has said so, and it has to survive a cut.
    Done(Seq),
    /// The write has failed: it may be on the target, or in part, or not.
    Failed(Seq),
    /// The state is to be taken, and no write is ordered any more.
    Take,
}

/// The notice that these 16 bytes are: 1, 2 or 3 in eight bytes, and the number of the write in eight, each high
/// byte first. A take has 0 for a write. `None` where they are no notice.
pub(crate) fn notice_in(bytes: &[u8]) -> Option<Notice>
    requires { length bytes.now ≡ NOTICE }
    ensures { IsNoticeIn bytes.now result }
{
    let (kind, rest) = split_u64(bytes);
    let (write, _) = split_u64(rest);
    notice_of(kind, write)
}

/// The notice of these two numbers.
pub(crate) fn notice_of(kind: u64, write: u64) -> Option<Notice>
    ensures { result ≡ notice_of kind write }
{
    if kind == DONE {
        Some(Notice::Done(Seq(write)))
    } else if kind == FAILED {
        Some(Notice::Failed(Seq(write)))
    } else if kind == TAKE && write == 0 {
        Some(Notice::Take)
    } else {
        None
    }
}
