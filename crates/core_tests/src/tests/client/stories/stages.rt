//! What servers say in every stage of a request of run 1, or of attempt 1.

/// A stage of a request.
#[derive(Clone, Copy)]
pub struct Stage {
    pub name: &'static str,
    /// The kind of the request, its number and its server, and how it stands.
    pub request: &'static str,
    pub outcome: &'static str,
    /// The rows that lead there.
    pub before: &'static str,
    /// The packets that change how it stands: behind `/` stands how, once they were answered so.
    pub changes: &'static str,
}

/// What a packet is answered where it changes nothing of a request.
pub static PACKETS: &str = "
    WantState 1 1 0 => NoSaved 1 1 0
    WantState 2 1 0 => NoSaved 2 1 0
    JobsOk 1 1 =>
    JobsOk 2 1 =>
    Started 1 =>
    Started 2 =>
    State 1 first => StateAck 1 0
    State 1 first~11=2 => StateAck 2 0
    NoState 1 0 1 => StateAck 1 0
    NoState 2 0 1 => StateAck 2 0
    Stopped 1 =>
    Stopped 2 =>
    Report 1 1 0 1 0 0 1 0 0 =>
    Report 1 2 0 1 0 0 1 0 0 =>
    Report 2 1 0 1 0 0 1 0 0 =>
    Refused 1 60 0 0 1 0 1 =>
    Refused 1 61 0 0 1 0 0 =>
    Refused 1 62 0 0 1 0 0 =>
    Refused 1 66 0 0 1 0 6 =>
    Refused 1 60 0 0 2 0 2 =>
    Refused 3 60 0 0 1 0 1 =>
    Refused 3 61 0 0 1 0 0 =>
    Refused 3 62 0 0 1 0 0 =>
    Refused 3 60 0 0 2 0 2 =>
    Refused 5 61 0 0 1 0 0 =>
    Refused 5 63 0 0 1 0 1 =>
    Refused 5 65 0 0 1 0 0 =>
    Refused 5 63 0 0 2 0 2 =>
    Refused 9 61 0 0 1 0 0 =>
    Refused 9 63 0 0 1 0 1 =>
    Refused 9 65 0 0 1 0 0 =>
    Refused 9 63 0 0 2 0 2 =>
    Refused 11 60 0 0 1 1 2 =>
    Refused 11 61 0 0 1 1 0 =>
    Refused 11 64 0 0 1 1 2 =>
    Refused 11 65 0 0 1 1 0 =>
    Refused 11 66 0 0 1 1 6 =>
    Refused 11 67 0 1 1 1 37 =>
    Refused 11 60 0 0 2 1 2 =>
    Refused 11 60 0 0 1 2 2 =>
    Jobs 1 writes => 69
    Start 1 => 69
    Trigger 1 1 => 69
    StateAck 1 0 => 69
    Stop 1 => 69
    Verify 1 1 reads => 69
    Saved 1 first => 69
    NoSaved 1 1 0 => 69
    State 1 first~15=1 => 69
    from 1 to 8 State 1 first => 69
    from 1 to 8 Started 1 => 69
    from 0 to 0 Started 1 => 69
    from 8 to 8 Started 1 => 69
    Copy first => 69
    CopyOk 1 0 0 => 69
    Fetch 1 => 69
    Granted 1 => 69
    from 9 to 8 Copy first => 69
    from 9 to 8 CopyOk 1 0 0 => 69
    from 9 to 8 Fetch 1 => 69
    from 9 to 8 Granted 1 => 69
    from 9 to 8 Started 1 => 69
    from 8 to 9 Fetch 1 => 69
    from 0 to 9 Started 1 => 69
";

pub static STAGES: [Stage; 16] = [
    Stage {
        name: "not begun",
        request: "begin 1 0",
        outcome: "none",
        before: "restart => -",
        changes: "",
    },
    Stage {
        name: "jobs are open",
        request: "begin 1 0",
        outcome: "open",
        before: BEGUN,
        changes: "
        JobsOk 1 1 => Start 1 / open
        Refused 1 60 0 0 1 0 1 => / 60
        Refused 1 62 0 0 1 0 0 => / 62
        Refused 1 66 0 0 1 0 6 => / 66
        ",
    },
    Stage {
        name: "start is open",
        request: "begin 1 0",
        outcome: "open",
        before: "
        restart => -
        begin writes => run 1 + Jobs 1 writes
        JobsOk 1 1 => Start 1
        ",
        changes: "
        Started 1 => / good
        Refused 3 60 0 0 1 0 1 => / 60
        Refused 3 62 0 0 1 0 0 => Jobs 1 writes / open
        ",
    },
    Stage {
        name: "started",
        request: "begin 1 0",
        outcome: "good",
        before: STARTED,
        changes: "",
    },
    Stage {
        name: "jobs are refused",
        request: "begin 1 0",
        outcome: "66",
        before: "
        restart => -
        begin writes => run 1 + Jobs 1 writes
        Refused 1 66 0 0 1 0 6 =>
        ",
        changes: "",
    },
    Stage {
        name: "not triggered",
        request: "trigger 1 0",
        outcome: "none",
        before: STARTED,
        changes: "",
    },
    Stage {
        name: "triggered",
        request: "trigger 1 0",
        outcome: "open",
        before: "
        restart => -
        begin writes => run 1 + Jobs 1 writes
        JobsOk 1 1 => Start 1
        Started 1 =>
        trigger 1 1 => Trigger 1 1
        ",
        changes: "
        State 1 first => StateAck 1 0 / good
        NoState 1 0 1 => StateAck 1 0 / good
        Refused 5 63 0 0 1 0 1 => / 63
        Refused 5 65 0 0 1 0 0 => / 65
        ",
    },
    Stage {
        name: "states have come",
        request: "trigger 1 0",
        outcome: "good",
        before: "
        restart => -
        begin writes => run 1 + Jobs 1 writes
        JobsOk 1 1 => Start 1
        Started 1 =>
        trigger 1 1 => Trigger 1 1
        NoState 1 0 1 => StateAck 1 0
        ",
        changes: "",
    },
    Stage {
        name: "the trigger is refused",
        request: "trigger 1 0",
        outcome: "63",
        before: "
        restart => -
        begin writes => run 1 + Jobs 1 writes
        JobsOk 1 1 => Start 1
        Started 1 =>
        trigger 1 1 => Trigger 1 1
        Refused 5 63 0 0 1 0 1 =>
        ",
        changes: "",
    },
    Stage {
        name: "to be stopped",
        request: "stop 1 0",
        outcome: "open",
        before: "
        restart => -
        begin writes => run 1 + Jobs 1 writes
        JobsOk 1 1 => Start 1
        Started 1 =>
        stop 1 => Stop 1
        ",
        changes: "
        Stopped 1 => / good
        Refused 9 63 0 0 1 0 1 => / 63
        Refused 9 65 0 0 1 0 0 => / 65
        ",
    },
    Stage {
        name: "stopped",
        request: "stop 1 0",
        outcome: "good",
        before: "
        restart => -
        begin writes => run 1 + Jobs 1 writes
        JobsOk 1 1 => Start 1
        Started 1 =>
        stop 1 => Stop 1
        Stopped 1 =>
        ",
        changes: "",
    },
    Stage {
        name: "the stop is refused",
        request: "stop 1 0",
        outcome: "65",
        before: "
        restart => -
        begin writes => run 1 + Jobs 1 writes
        JobsOk 1 1 => Start 1
        Started 1 =>
        stop 1 => Stop 1
        Refused 9 65 0 0 1 0 0 =>
        ",
        changes: "",
    },
    Stage {
        name: "not verified",
        request: "verify 1 0",
        outcome: "none",
        before: STARTED,
        changes: "",
    },
    Stage {
        name: "to be verified",
        request: "verify 1 0",
        outcome: "open",
        before: VERIFYING,
        changes: "
        Report 1 1 0 1 0 0 1 0 0 => / good
        Refused 11 60 0 0 1 1 2 => / 60
        Refused 11 64 0 0 1 1 2 => / 64
        Refused 11 65 0 0 1 1 0 => / 65
        Refused 11 66 0 0 1 1 6 => / 66
        Refused 11 67 0 1 1 1 37 => / 67
        ",
    },
    Stage {
        name: "verified",
        request: "verify 1 0",
        outcome: "good",
        before: "
        restart => -
        begin writes => run 1 + Jobs 1 writes
        JobsOk 1 1 => Start 1
        Started 1 =>
        verify 1 reads => attempt 1 + Verify 1 1 reads
        Report 1 1 0 1 0 0 1 0 0 =>
        ",
        changes: "",
    },
    Stage {
        name: "the verify is refused",
        request: "verify 1 0",
        outcome: "67",
        before: "
        restart => -
        begin writes => run 1 + Jobs 1 writes
        JobsOk 1 1 => Start 1
        Started 1 =>
        verify 1 reads => attempt 1 + Verify 1 1 reads
        Refused 11 67 0 1 1 1 37 =>
        ",
        changes: "",
    },
];

const BEGUN: &str = "
    restart => -
    begin writes => run 1 + Jobs 1 writes
";

const STARTED: &str = "
    restart => -
    begin writes => run 1 + Jobs 1 writes
    JobsOk 1 1 => Start 1
    Started 1 =>
";

const VERIFYING: &str = "
    restart => -
    begin writes => run 1 + Jobs 1 writes
    JobsOk 1 1 => Start 1
    Started 1 =>
    verify 1 reads => attempt 1 + Verify 1 1 reads
";
