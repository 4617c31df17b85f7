//! What durable notes do with their bytes.

ghost use Rattle.disk_model.specs.Notes.{Note, IsLoaded, IsSaved};

use fc_base::Fault;

/// Bytes that outlast a cut of the power.
pub trait Notes {
    /// The durable bytes, and how often the device has failed.
    ghost note: { Self → Note };

    /// The durable bytes, which stay as they are.
    ///
    /// `LoadFault`: the device failed. `NoMemory`: nothing changes.
    fn load(&mut self) -> Result<Vec<u8>, Fault>
        ensures { IsLoaded (note self.old) (note self.new) result };

    /// Makes these bytes the durable ones, all or none of them.
    ///
    /// `SaveFault`: the device failed, and the durable bytes are the old or the new. `NoMemory`:
    /// they are the old.
    fn save(&mut self, bytes: &[u8]) -> Result<(), Fault>
        ensures { IsSaved (note self.old) (note self.new) bytes.now result };
}
