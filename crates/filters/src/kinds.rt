//! The kinds of records.

ghost use Rattle.std.specs.Prelude.{◌≡◌};
ghost use Rattle.filters.specs.Kinds.{told_number, told_numbered, said_number};

/// The kinds of records that are read. The discriminants are their numbers.
#[derive(Clone, Copy, Debug, PartialEq, Eq)]
pub enum InRecordKind {
    /// The note, as it was kept: first, and once.
    Note = 1,
    /// A frame has come.
    Frame = 2,
    /// A write is done.
    Done = 3,
    /// A write has failed.
    Failed = 4,
    /// Blocks that a check wants.
    Blocks = 5,
    /// A block that a check wants could not be read.
    Unread = 6,
    /// Begin a run.
    Begin = 7,
    /// Trigger the states of a run.
    Trigger = 8,
    /// Stop a run.
    Stop = 9,
    /// Check the files of a run.
    Verify = 10,
    /// Ask again for all that isn't answered.
    Tick = 11,
    /// Tell how a request stands.
    Look = 12,
    /// Show a report.
    Show = 13,
    /// Tell how an attempt ended.
    Ends = 14,
}

/// The kinds of records that are written. The discriminants are their numbers.
#[derive(Clone, Copy, Debug, PartialEq, Eq)]
pub enum OutRecordKind {
    /// The note, which has to be durable before anything behind it is carried out.
    Save = 65,
    /// A frame to send.
    Send = 66,
    /// The order of a write.
    Order = 67,
    /// A check wants blocks.
    Want = 68,
    /// The cut.
    Cut = 69,
    /// The number of a run or of an attempt.
    Number = 70,
    /// How a request stands.
    Outcome = 71,
    /// A report.
    Report = 72,
    /// The answer ends.
    End = 73,
    /// How an attempt ended at a place.
    PlaceEnd = 74,
    /// How an attempt ended, in one word.
    AttemptEnd = 75,
}

const ALL_TOLD: [InRecordKind; 14] = [
    InRecordKind::Note,
    InRecordKind::Frame,
    InRecordKind::Done,
    InRecordKind::Failed,
    InRecordKind::Blocks,
    InRecordKind::Unread,
    InRecordKind::Begin,
    InRecordKind::Trigger,
    InRecordKind::Stop,
    InRecordKind::Verify,
    InRecordKind::Tick,
    InRecordKind::Look,
    InRecordKind::Show,
    InRecordKind::Ends,
];

impl InRecordKind {
    /// The kind's number.
    pub fn number(self) -> u8
        ensures { result ≡ told_number self }
    {
        self as u8
    }

    /// The kind with this number, if there is one.
    #[tactic(auto, unfolding(crate::specs::Kinds::told_numbered))]
    pub fn numbered(number: u8) -> Option<InRecordKind>
        ensures { result ≡ told_numbered number }
    {
        ALL_TOLD
            .iter()
            .copied()
            .find(|kind| kind.number() == number)
    }
}

impl OutRecordKind {
    /// The kind's number.
    pub fn number(self) -> u8
        ensures { result ≡ said_number self }
    {
        self as u8
    }
}
