//! A verify state is kept as bytes.

ghost use Rattle.std.specs.Prelude.{◌≡◌, IfOk, IfErr};
ghost use Rattle.fc_base.specs.declared.fault.Fault.TheVariants.{NoMemory};

use fc_base::Fault;
use std::alloc::Global;
use verify_state::{VerifyState, one_spelling};

/// A state that was written down as bytes and read back: it is the same state, and only want of
/// memory keeps it from that.
pub fn write_and_read(alloc: Global, state: &VerifyState) -> Result<VerifyState, Fault>
    ensures same { IfOk result (λ again. again ≡ state.now) }
    ensures fault { IfErr result (λ fault. fault ≡ NoMemory) }
{
    state.keeps_its_ranges();
    one_spelling();
    let Ok(bytes) = state.encode(alloc) else {
        return Err(Fault::NoMemory);
    };
    VerifyState::decode(&bytes)
}
