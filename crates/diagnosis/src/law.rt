//! Laws of what blocks hold, over all checks, blocks and bytes. The functions have nothing to run.

ghost use Rattle.diagnosis.specs.Laws.{SectorsSayOneThing, EachBlockHoldsOneKind, NamedWritesAreHeld, PiecesSay, LostWritesAreOlder, OtherWritesAreFar, UnissuedWritesWereNotIssued};

use recheck::faults_are_losses;
use write_order::stamps_tell_writes_apart;

/// A sector says at most one thing: the bytes of two stamps that differ in a number differ.
pub fn sectors_say_one_thing()
    ensures { SectorsSayOneThing }
{
    stamps_tell_writes_apart();
}

/// Of what a block can hold only one kind is so, and with the numbers that are told with it. That
/// one is, says [`diagnose`](crate::diagnose).
pub fn each_block_holds_one_kind()
    ensures { EachBlockHoldsOneKind }
{}

/// Where a kind names a write, the block holds the bytes of that write: so it is told as
/// misdirected from another block only where it holds a write to that block.
pub fn named_writes_are_held()
    ensures { NamedWritesAreHeld }
{}

/// What `Lost` and `Unissued` say in the words of the writes of a job and of its state: the write
/// that stands in the block is older than the last one that has completed to it; or it was none of
/// those that were issued to it.
pub fn own_writes_are_what_they_are_told()
    ensures lost { LostWritesAreOlder }
    ensures unissued { UnissuedWritesWereNotIssued }
{
    faults_are_losses();
}

/// A block of one sector is told as a write that was never issued, or as one of another run, job,
/// server or block, only where more than [`FEW_BITS`](crate::FEW_BITS) are other than in each write
/// that it may hold: so not where one bit is.
pub fn other_writes_are_far()
    ensures { OtherWritesAreFar }
{}

/// A sector is told as a stamp exactly where it says what that stamp does.
pub fn pieces_say()
    ensures { PiecesSay }
{}
