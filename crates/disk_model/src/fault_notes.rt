//! Durable notes that fail once.

ghost use Rattle.std.specs.Prelude.{◌≡◌, ◌≢◌, Some, Ok, Err, if◌then◌else◌};
ghost use Rattle.disk_model.specs.Notes.{IsLoaded, IsSaved};
ghost use Rattle.disk_model.specs.MemNotes.{note_of};
ghost use Rattle.disk_model.specs.Countdown.{one_fewer};

use crate::countdown::Countdown;
use crate::mem_notes::MemNotes;
use crate::notes::Notes;
use fc_base::Fault;

/// Notes in memory, one of whose saves fails.
#[derive(Drop)]
pub struct FaultNotes {
    notes: MemNotes,
    countdown: Countdown,
    landed: bool,
}

impl FaultNotes {
    ghost use Rattle.disk_model.specs.FaultNotes.{faulty_note, saves_left, lands, notes_of};

    /// Notes whose save number `at`, counted from 0, answers `SaveFault`, and leaves the new bytes
    /// where `landed`, else the old.
    pub fn new(notes: MemNotes, at: u64, landed: bool) -> Self
        ensures note { faulty_note result ≡ note_of notes }
        ensures at { saves_left result ≡ Some at }
        ensures landed { lands result ≡ landed }
    {
        FaultNotes {
            notes,
            countdown: Countdown::Left(at),
            landed,
        }
    }

    /// The notes in memory, with all that was saved in them.
    pub fn into_notes(self) -> MemNotes
        ensures notes { result ≡ notes_of self }
        ensures note { note_of result ≡ record (faulty_note self) { failures = 0 } }
    {
        let FaultNotes {
            notes,
            countdown: _,
            landed: _,
        } = self;
        notes
    }
}

impl Notes for FaultNotes {
    ghost use Rattle.disk_model.specs.FaultNotes.{faulty_note, saves_left, lands};

    ghost note = { faulty_note };

    fn load(&mut self) -> Result<Vec<u8>, Fault>
        ensures law { IsLoaded (faulty_note self.old) (faulty_note self.new) result }
        ensures left { saves_left self.new ≡ saves_left self.old }
        ensures landed { lands self.new ≡ lands self.old }
        ensures fault { result ≢ Err Fault.LoadFault }
    {
        self.notes.load()
    }

    fn save(&mut self, bytes: &[u8]) -> Result<(), Fault>
        ensures law { IsSaved (faulty_note self.old) (faulty_note self.new) bytes.now result }
        ensures left { saves_left self.new ≡ one_fewer (saves_left self.old) }
        ensures landed { lands self.new ≡ lands self.old }
        // The save whose turn it is doesn't succeed, and no other fails.
        ensures due { saves_left self.old ≡ Some 0 → result ≢ Ok tt }
        ensures spared { saves_left self.old ≢ Some 0 → result ≢ Err Fault.SaveFault }
        ensures fault { result ≡ Err Fault.SaveFault → (faulty_note self.new).bytes
            ≡ (if lands self.old then bytes.now else (faulty_note self.old).bytes) }
    {
        let is_due = self.countdown.is_due();
        self.countdown = self.countdown.next();
        if !is_due {
            return self.notes.save(bytes);
        }
        if self.landed {
            self.notes.save(bytes)?;
        }
        self.countdown = Countdown::Failed;
        Err(Fault::SaveFault)
    }
}
