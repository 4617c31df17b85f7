//! What a save left.

ghost use Rattle.std.specs.Prelude.{◌≡◌};

/// What an event left in the notes: the bytes that it saved, or those from before.
#[derive(Clone, Copy, Debug, PartialEq, Eq)]
pub enum SaveOutcome {
    /// It made no save.
    NoSave,
    /// Its save answered `Ok`: the new bytes.
    Saved,
    /// Its save failed, and left the new bytes.
    LostNew,
    /// Its save failed, and left the old bytes.
    LostOld,
}

impl SaveOutcome {
    ghost use Rattle.disk_model.specs.SaveOutcome.{is_saved, is_lost, has_new};

    /// Whether a save answered `Ok`.
    pub const fn is_saved(self) -> bool
        ensures { result ≡ is_saved self }
    {
        matches!(self, SaveOutcome::Saved)
    }

    /// Whether a save failed.
    pub const fn is_lost(self) -> bool
        ensures { result ≡ is_lost self }
    {
        matches!(self, SaveOutcome::LostNew | SaveOutcome::LostOld)
    }

    /// Whether the new bytes are there.
    pub const fn has_new(self) -> bool
        ensures { result ≡ has_new self }
    {
        matches!(self, SaveOutcome::Saved | SaveOutcome::LostNew)
    }
}
