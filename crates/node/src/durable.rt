//! Durable notes, and whether a save of them has failed.

ghost use Rattle.std.specs.Prelude.{◌≡◌, false};
ghost use Rattle.node.specs.Saving.{Saves, save_of_notes};

use disk_model::Notes;
use fc_base::Fault;

/// The notes of a node that saves before it changes: it is down once a save has failed, until it is
/// opened anew over them.
#[derive(Drop)]
pub struct Durable<N> {
    notes: N,
    down: bool,
}

impl<N: Notes> Durable<N> {
    /// The notes of a node that was just opened: no save has failed.
    pub fn new(notes: N) -> Durable<N>
        ensures { result ≡ record { notes = notes; down = false } }
    {
        Durable { notes, down: false }
    }

    /// Makes these bytes the durable ones.
    ///
    /// `NoMemory`: nothing changes. `SaveFault`: the device failed, the durable bytes are the old
    /// or the new, and it is down.
    pub fn save(&mut self, bytes: &[u8]) -> Result<(), Fault>
        ensures { Saves (λ durable. N.note durable.notes)
            (save_of_notes bytes.now self.old self.new) self.old self.new result }
    {
        match self.notes.save(bytes) {
            Ok(()) => Ok(()),
            Err(Fault::NoMemory) => Err(Fault::NoMemory),
            Err(_) => {
                self.down = true;
                Err(Fault::SaveFault)
            }
        }
    }

    /// Whether a save has failed.
    #[inline(always)]
    pub fn is_down(&self) -> bool
        ensures { result ≡ self.now.down }
    {
        self.down
    }

    /// The notes, as they are durable. Behind a failed save they are what that left.
    pub fn notes(&self) -> &N
        ensures { result.now ≡ self.now.notes }
    {
        &self.notes
    }

    /// The notes of a node that is taken off.
    pub fn into_notes(self) -> N
        ensures { result ≡ self.notes }
    {
        let Durable { notes, down: _ } = self;
        notes
    }
}
