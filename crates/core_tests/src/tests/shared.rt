//! What the stories of the cores share: how frames, notes and states are spelled, and how a node is taken
//! through rows.

mod all_copies;
mod changes;
mod draft;
mod frames;
mod life;
mod named;
mod notes;
mod spelling;
mod states;
mod story_node;
mod telling;
mod trouble;
mod vectors;
mod words;

pub use all_copies::{AllCopies, sends_all};
pub use changes::{Reader, first_note, first_unlike_field, is_changed_note};
pub use draft::Draft;
pub use life::{Life, Unlike};
pub use named::{put_state, put_word};
pub use notes::UnreadNotes;
pub use spelling::{Ends, is_frame};
pub use states::is_state;
pub use story_node::Node;
pub use telling::{
    Failing, LostSave, NONE_FAILS, Story, failing_notes, holds_note, holds_once_on, unlike_after,
    unlike_over,
};
pub use trouble::Trouble;
pub use words::{first_word, next_key, next_u32, next_u64};
