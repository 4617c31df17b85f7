//! Every refusal of fiocut, with its number and its name.

ghost use Rattle.std.specs.Prelude.{◌≡◌, Some};
ghost use Rattle.fc_base.specs.Fault.{number_of, name_of, sort_of};

use std::error::Error;
use std::fmt;

/// Why something was refused. Its number is the variant's discriminant. Job files, verify states
/// and frames share some names: there the variant has a prefix, and the printed name has none.
#[derive(Clone, Copy, Debug, PartialEq, Eq)]
pub enum Fault {
    /// The job file is longer than 16,384 bytes.
    JobTooLong = 1,
    /// The job file has a byte that is neither printable ASCII, a tab nor a line's end.
    NotAscii = 2,
    /// A line is neither an option, a section's header nor a comment, or is an option before any
    /// section.
    BadLine = 3,
    /// An option that the profile doesn't name.
    UnknownOption = 4,
    /// A value that its option doesn't take.
    BadValue = 5,
    /// The job file has no job.
    JobNoJobs = 6,
    /// The job file has more than 16 jobs.
    TooManyJobs = 7,
    /// A job has no size.
    NoSize = 8,
    /// A job is past a limit, or verifies a pattern and has none.
    OutOfLimits = 9,
    /// A job has the file name of an earlier one.
    SharedFile = 10,
    /// Some jobs write and some read.
    MixedPhases = 11,
    /// No memory while a job file was read.
    JobNoMemory = 12,
    /// The jobs read where they have to write, or the other way round.
    WrongPhase = 13,
    /// A completion comes from before the server's restart.
    OldBoot = 20,
    /// No such write is in flight, or no such check is open.
    NotInFlight = 21,
    /// A verify state ends too early.
    StateShort = 30,
    /// A verify state begins with other bytes.
    StateBadMagic = 31,
    /// A verify state has a field out of its range.
    StateBadField = 32,
    /// No job can have come to this verify state.
    Impossible = 33,
    /// Bytes stand after a verify state.
    StateTrailing = 34,
    /// No memory.
    NoMemory = 35,
    /// A verify state of another run, server or job.
    OtherKey = 36,
    /// A verify state of a job with other settings.
    OtherJob = 37,
    /// A verify state whose generator stands at another place.
    OtherPlace = 38,
    /// A frame ends too early.
    FrameShort = 40,
    /// A frame begins with other bytes.
    FrameBadMagic = 41,
    /// A frame of no known kind.
    BadKind = 42,
    /// A frame has a field out of its range.
    FrameBadField = 43,
    /// A frame is longer than frames may be.
    FrameTooLong = 44,
    /// Bytes stand after a frame.
    FrameTrailing = 45,
    /// No memory while a frame was read or written.
    FrameNoMemory = 46,
    /// The disk is off, or was off since.
    Off = 50,
    /// The disk failed to write.
    WriteFault = 51,
    /// The disk failed to read.
    ReadFault = 52,
    /// The notes were not saved.
    SaveFault = 53,
    /// The notes are not such as were saved.
    BadNote = 54,
    /// The notes were not loaded.
    LoadFault = 55,
    /// A request with a number that was used.
    Old = 60,
    /// A request that has to wait for open writes, or for jobs to end.
    Busy = 61,
    /// A start without the jobs of that run.
    NoJobs = 62,
    /// A run that was lost by a cut, or has stopped.
    Gone = 63,
    /// A run whose files a later run has written.
    Overwritten = 64,
    /// A run that this server has never had.
    Unknown = 65,
    /// A job file that is refused.
    BadJobs = 66,
    /// A verify state that doesn't fit the job that reads.
    Misfit = 67,
    /// A node whose notes were not saved, and that wants a restart.
    Down = 68,
    /// A packet that this node doesn't take.
    Misdirected = 69,
    /// A run that was never begun.
    NoSuchRun = 70,
    /// A second and different verify state of one key.
    Conflict = 71,
    /// The numbers are used up.
    NumbersSpent = 72,
    /// The table of verify states is full.
    TableFull = 73,
    /// No such frame was sent.
    NoFrame = 80,
    /// The node is off.
    NodeOff = 81,
    /// The node is on.
    NodeOn = 82,
    /// No such write is open, or no such file.
    NoWrite = 83,
    /// An event that saves nothing, and so cannot be cut short in its save.
    NoSave = 84,
    /// No such server.
    NoServer = 85,
    /// A node and the journal of frames differ.
    Unlike = 86,
    /// A generation that isn't above each one before it.
    UsedGeneration = 87,
    /// A number that no generation has.
    BadGeneration = 88,
    /// There is no mirror.
    NoMirror = 89,
    /// A worker waited for too many turns.
    TurnsSpent = 90,
    /// Input could not be read.
    ReadError = 91,
    /// Output could not be written.
    WriteError = 92,
    /// A seat of another server.
    WrongSeat = 93,
    /// Bytes that are no notice of a write.
    BadNotice = 94,
    /// Input that ended early.
    EndOfInput = 95,
    /// A job file has no job of this number.
    NoJob = 96,
}

/// What a refusal says of the world outside: rules that go by cases need no more than this.
#[derive(Clone, Copy, Debug, PartialEq, Eq)]
pub enum FaultSort {
    /// A growth was refused.
    Memory,
    /// A save of the notes failed, and what is stored is the old or the new.
    Save,
    /// Anything else: the call was refused by a rule.
    Refusal,
}

impl Fault {
    /// The number that is printed and sent, from 1 to 96.
    pub fn number(self) -> u8
        ensures { result ≡ number_of self }
    {
        self as u8
    }

    /// The name that is printed, without a prefix.
    pub fn name(self) -> &'static str
        ensures { result.now ≡ name_of self }
    {
        match self {
            Fault::JobTooLong | Fault::FrameTooLong => "TooLong",
            Fault::NotAscii => "NotAscii",
            Fault::BadLine => "BadLine",
            Fault::UnknownOption => "UnknownOption",
            Fault::BadValue => "BadValue",
            Fault::JobNoJobs | Fault::NoJobs => "NoJobs",
            Fault::TooManyJobs => "TooManyJobs",
            Fault::NoSize => "NoSize",
            Fault::OutOfLimits => "OutOfLimits",
            Fault::SharedFile => "SharedFile",
            Fault::MixedPhases => "MixedPhases",
            Fault::JobNoMemory | Fault::NoMemory | Fault::FrameNoMemory => "NoMemory",
            Fault::WrongPhase => "WrongPhase",
            Fault::OldBoot => "OldBoot",
            Fault::NotInFlight => "NotInFlight",
            Fault::StateShort | Fault::FrameShort => "Short",
            Fault::StateBadMagic | Fault::FrameBadMagic => "BadMagic",
            Fault::StateBadField | Fault::FrameBadField => "BadField",
            Fault::Impossible => "Impossible",
            Fault::StateTrailing | Fault::FrameTrailing => "Trailing",
            Fault::OtherKey => "OtherKey",
            Fault::OtherJob => "OtherJob",
            Fault::OtherPlace => "OtherPlace",
            Fault::BadKind => "BadKind",
            Fault::Off => "Off",
            Fault::WriteFault => "WriteFault",
            Fault::ReadFault => "ReadFault",
            Fault::SaveFault => "SaveFault",
            Fault::BadNote => "BadNote",
            Fault::LoadFault => "LoadFault",
            Fault::Old => "Old",
            Fault::Busy => "Busy",
            Fault::Gone => "Gone",
            Fault::Overwritten => "Overwritten",
            Fault::Unknown => "Unknown",
            Fault::BadJobs => "BadJobs",
            Fault::Misfit => "Misfit",
            Fault::Down => "Down",
            Fault::Misdirected => "Misdirected",
            Fault::NoSuchRun => "NoSuchRun",
            Fault::Conflict => "Conflict",
            Fault::NumbersSpent => "NumbersSpent",
            Fault::TableFull => "TableFull",
            Fault::NoFrame => "NoFrame",
            Fault::NodeOff => "NodeOff",
            Fault::NodeOn => "NodeOn",
            Fault::NoWrite => "NoWrite",
            Fault::NoSave => "NoSave",
            Fault::NoServer => "NoServer",
            Fault::Unlike => "Unlike",
            Fault::UsedGeneration => "UsedGeneration",
            Fault::BadGeneration => "BadGeneration",
            Fault::NoMirror => "NoMirror",
            Fault::TurnsSpent => "TurnsSpent",
            Fault::ReadError => "ReadError",
            Fault::WriteError => "WriteError",
            Fault::WrongSeat => "WrongSeat",
            Fault::BadNotice => "BadNotice",
            Fault::EndOfInput => "EndOfInput",
            Fault::NoJob => "NoJob",
        }
    }

    /// Whether memory, a save or a rule refused.
    pub fn sort(self) -> FaultSort
        ensures { result ≡ sort_of self }
    {
        match self {
            Fault::JobNoMemory | Fault::NoMemory | Fault::FrameNoMemory => FaultSort::Memory,
            Fault::SaveFault => FaultSort::Save,
            _ => FaultSort::Refusal,
        }
    }
}

impl fmt::Display for Fault {
    ghost output = { λ fault. Some (name_of fault) };

    fn fmt<W: fmt::Write>(&self, f: &mut fmt::Formatter<W>) -> fmt::Result {
        f.write_str(self.name())
    }
}

impl Error for Fault {}
