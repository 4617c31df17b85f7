//! How an attempt ended at a place.

ghost use Rattle.std.specs.Prelude.{◌≡◌, ◌≤◌};
ghost use Rattle.fc_base.specs.declared.limits.TheConstants.{MAX_BLOCKS};
ghost use Rattle.attempt_ends.specs.PlaceEnds.{counts_of, end_by_counts, end_by_state, end_by_report, or_refused, has_faults, is_left_out, says_nothing, counts_by_state};

use client_core::Outcome;
use fc_base::{CheckReport, ReportEnd};
use messages::Reason;

/// How many blocks were checked, and how many of them were at fault.
#[derive(Clone, Copy, Debug)]
pub struct Counts {
    pub checked: u32,
    pub faults: u32,
}

/// How an attempt ended at a place.
#[derive(Clone, Copy, Debug)]
pub enum PlaceEnd {
    /// No report has come, and the attempt was refused at the server.
    Refused(Reason),
    /// A state is kept of it, and the attempt doesn't ask for it.
    Unasked,
    /// No report has come.
    Unanswered,
    /// A report has come, which isn't known to be by a state: the check took all writes for done.
    InFull(Counts),
    /// It was checked by its state, up to a block that could not be read.
    Unread(Counts, u32),
    /// It was checked by its state, and nothing had to be there.
    Nothing,
    /// It was checked by its state, and some blocks are at fault.
    Faults(Counts),
    /// It was checked by its state, so many blocks, and none is at fault.
    Sound(u32),
}

impl Counts {
    /// Those of a report.
    fn of(report: &CheckReport) -> Counts
        ensures { result ≡ counts_of report.now }
    {
        Counts {
            checked: report.checked(),
            faults: report.faults(),
        }
    }
}

impl PlaceEnd {
    /// What a report says of a place, by whether it is known to be by a state.
    pub(crate) fn by_report(by_state: bool, report: &CheckReport) -> PlaceEnd
        ensures { result ≡ end_by_report by_state report.now }
    {
        if by_state {
            PlaceEnd::by_state(report)
        } else {
            PlaceEnd::InFull(Counts::of(report))
        }
    }

    /// What a report says that is by a state.
    fn by_state(report: &CheckReport) -> PlaceEnd
        ensures { result ≡ end_by_state report.now }
    {
        match report.end() {
            ReportEnd::ReadFault(block) => PlaceEnd::Unread(Counts::of(report), block),
            ReportEnd::Whole | ReportEnd::AtFault => PlaceEnd::by_counts(report),
        }
    }

    /// What the counts of a report say that is by a state.
    fn by_counts(report: &CheckReport) -> PlaceEnd
        ensures { result ≡ end_by_counts (counts_of report.now) }
    {
        let counts = Counts::of(report);
        if counts.checked == 0 {
            PlaceEnd::Nothing
        } else if counts.faults == 0 {
            PlaceEnd::Sound(counts.checked)
        } else {
            PlaceEnd::Faults(counts)
        }
    }

    /// This, but where the attempt is refused at the server.
    pub(crate) fn or_refused(self, outcome: Outcome) -> PlaceEnd
        ensures { result ≡ or_refused outcome self }
    {
        match outcome {
            Outcome::Refused(reason) => PlaceEnd::Refused(reason),
            Outcome::None | Outcome::Open | Outcome::Good => self,
        }
    }

    /// Whether blocks are at fault, by the state.
    pub(crate) fn has_faults(self) -> bool
        ensures { result ≡ has_faults self }
    {
        match self {
            PlaceEnd::Faults(_) => true,
            PlaceEnd::Unread(counts, _) => counts.faults > 0,
            _ => false,
        }
    }

    /// Whether some of what should have been checked wasn't.
    pub(crate) fn is_left_out(self) -> bool
        ensures { result ≡ is_left_out self }
    {
        match self {
            PlaceEnd::Refused(_) | PlaceEnd::Unasked | PlaceEnd::Unanswered => true,
            PlaceEnd::Unread(_, _) => true,
            _ => false,
        }
    }

    /// Whether its check says nothing of what was written.
    pub(crate) fn says_nothing(self) -> bool
        ensures { result ≡ says_nothing self }
    {
        match self {
            PlaceEnd::InFull(_) | PlaceEnd::Nothing => true,
            _ => false,
        }
    }

    /// What was counted by the state.
    pub(crate) fn counts_by_state(self) -> Counts
        ensures { result ≡ counts_by_state self }
    {
        match self {
            PlaceEnd::Unread(counts, _) | PlaceEnd::Faults(counts) => counts,
            PlaceEnd::Sound(checked) => Counts { checked, faults: 0 },
            _ => Counts {
                checked: 0,
                faults: 0,
            },
        }
    }
}
