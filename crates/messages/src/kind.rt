//! The kinds of packets, the number that a frame has for each, and who sends it.

ghost use Rattle.std.specs.Prelude.{◌≡◌};
ghost use Rattle.messages.specs.Kinds.{number_of, name_of, kind_numbered, is_of_client, is_of_server, is_of_mirror};

/// What a packet says. The discriminants are the numbers in frames, of which 17 is that of a piece;
/// [`PacketKind::is_of_client`], `is_of_server` and `is_of_mirror` say who sends which.
#[derive(Clone, Copy, Debug, PartialEq, Eq, Hash)]
pub enum PacketKind {
    Jobs = 1,
    JobsOk = 2,
    Start = 3,
    Started = 4,
    Trigger = 5,
    State = 6,
    NoState = 7,
    StateAck = 8,
    Stop = 9,
    Stopped = 10,
    Verify = 11,
    WantState = 12,
    Saved = 13,
    NoSaved = 14,
    Report = 15,
    Refused = 16,
    Copy = 18,
    CopyOk = 19,
    Fetch = 20,
    Granted = 21,
}

/// Every kind, in the order of the numbers.
const KINDS: [PacketKind; 20] = [
    PacketKind::Jobs,
    PacketKind::JobsOk,
    PacketKind::Start,
    PacketKind::Started,
    PacketKind::Trigger,
    PacketKind::State,
    PacketKind::NoState,
    PacketKind::StateAck,
    PacketKind::Stop,
    PacketKind::Stopped,
    PacketKind::Verify,
    PacketKind::WantState,
    PacketKind::Saved,
    PacketKind::NoSaved,
    PacketKind::Report,
    PacketKind::Refused,
    PacketKind::Copy,
    PacketKind::CopyOk,
    PacketKind::Fetch,
    PacketKind::Granted,
];

impl PacketKind {
    /// The kind's number in a frame.
    pub fn number(self) -> u8
        ensures { result ≡ number_of self }
    {
        self as u8
    }

    /// The kind with this number in a frame, if there is one.
    #[tactic(auto, unfolding(crate::specs::Kinds::kind_numbered))]
    pub fn numbered(number: u8) -> Option<PacketKind>
        ensures { result ≡ kind_numbered number }
    {
        KINDS.iter().copied().find(|kind| kind.number() == number)
    }

    /// Whether the client sends packets of this kind.
    pub fn is_of_client(self) -> bool
        ensures { result ≡ is_of_client self }
    {
        matches!(
            self,
            PacketKind::Jobs
                | PacketKind::Start
                | PacketKind::Trigger
                | PacketKind::StateAck
                | PacketKind::Stop
                | PacketKind::Verify
                | PacketKind::Saved
                | PacketKind::NoSaved
                | PacketKind::Copy
                | PacketKind::Fetch
        )
    }

    /// Whether servers send packets of this kind.
    pub fn is_of_server(self) -> bool
        ensures { result ≡ is_of_server self }
    {
        matches!(
            self,
            PacketKind::JobsOk
                | PacketKind::Started
                | PacketKind::State
                | PacketKind::NoState
                | PacketKind::Stopped
                | PacketKind::WantState
                | PacketKind::Report
                | PacketKind::Refused
        )
    }

    /// Whether the mirror sends packets of this kind. A copy of a state goes both ways between it and
    /// the client; every other kind is sent by one of the three alone.
    pub fn is_of_mirror(self) -> bool
        ensures { result ≡ is_of_mirror self }
    {
        matches!(
            self,
            PacketKind::Copy | PacketKind::CopyOk | PacketKind::Granted
        )
    }

    /// The kind's name, as it is printed.
    pub fn name(self) -> &'static str
        ensures { result.now ≡ name_of self }
    {
        match self {
            PacketKind::Jobs => "Jobs",
            PacketKind::JobsOk => "JobsOk",
            PacketKind::Start => "Start",
            PacketKind::Started => "Started",
            PacketKind::Trigger => "Trigger",
            PacketKind::State => "State",
            PacketKind::NoState => "NoState",
            PacketKind::StateAck => "StateAck",
            PacketKind::Stop => "Stop",
            PacketKind::Stopped => "Stopped",
            PacketKind::Verify => "Verify",
            PacketKind::WantState => "WantState",
            PacketKind::Saved => "Saved",
            PacketKind::NoSaved => "NoSaved",
            PacketKind::Report => "Report",
            PacketKind::Refused => "Refused",
            PacketKind::Copy => "Copy",
            PacketKind::CopyOk => "CopyOk",
            PacketKind::Fetch => "Fetch",
            PacketKind::Granted => "Granted",
        }
    }
}
