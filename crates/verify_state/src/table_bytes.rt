//! The bytes of kept states: each stands behind the number of its bytes.

ghost use Rattle.std.specs.Prelude.{◌≡◌, ◌≤◌, ◌++◌, OnErr, OnOk, IfOk, is_some};
ghost use Rattle.std.specs.List.{flat_map};
ghost use Rattle.std.specs.Option.{option_map};
ghost use Rattle.verify_state.specs.declared.table.TheConstants.{KEPT_LIMIT};
ghost use Rattle.verify_state.specs.Spelling.{spelling as state_bytes};
ghost use Rattle.verify_state.specs.TableBytes.{counted_bytes};
ghost use Rattle.verify_state.specs.TableReading.{first_state, states_at, HoldStates, ReadsStates};

use crate::law::one_spelling;
use crate::state::VerifyState;
use crate::table::StateTable;
use fc_base::{put_u32, split_u32};
use std::alloc::{AllocError, Global};

/// How many bytes a state is written in.
const STATE_LENGTH: u32 = 136;

/// Adds the bytes of states, in their order. Where memory runs out, some of them may be there.
pub fn put_states(out: &mut Vec<u8>, states: &[VerifyState]) -> Result<(), AllocError>
    ensures { OnOk result
        (out.new.items ≡ out.old.items ++ flat_map
        (λ s. counted_bytes (state_bytes s)) states.now) }
{
    for state in states {
        put_state(out, state)?;
    }
    Ok(())
}

/// Adds the bytes of a state behind their number.
fn put_state(out: &mut Vec<u8>, state: &VerifyState) -> Result<(), AllocError>
    ensures { OnOk result (out.new.items ≡ out.old.items ++ counted_bytes (state_bytes state.now)) }
{
    state.keeps_its_ranges();
    one_spelling();
    put_u32(out, STATE_LENGTH)?;
    state.push_to(out)
}

/// So many states and nothing behind them, `None` where the bytes aren't that, or two states are of one
/// key. Memory is asked for once all of them are seen to be there, and not by a number that is told.
pub fn states_in(alloc: Global, count: u32, bytes: &[u8]) -> Result<Option<StateTable>, AllocError>
    requires { count ≤ KEPT_LIMIT }
    ensures states { IfOk result (ReadsStates count bytes.now) }
    ensures memory { OnErr result (HoldStates count bytes.now) }
{
    if !hold_states(count, bytes) {
        return Ok(None);
    }
    let mut kept = StateTable::new(alloc);
    let mut rest = bytes;
    for _ in 0..count {
        let Some(first) = first_state(rest) else {
            return Ok(None);
        };
        if kept.has(first.state.key()) {
            return Ok(None);
        }
        kept.push(first.state)?;
        rest = first.rest;
    }
    kept.keeps_keys_apart();
    Ok(Some(kept))
}

/// Whether the bytes are so many states, and nothing behind them. It takes no memory.
fn hold_states(count: u32, bytes: &[u8]) -> bool
    ensures { result ≡ is_some (states_at count bytes.now) }
{
    let mut rest = bytes;
    for _ in 0..count {
        let Some(first) = first_state(rest) else {
            return false;
        };
        rest = first.rest;
    }
    rest.is_empty()
}

/// The first state of bytes, and what stands behind it.
#[derive(Clone, Copy)]
struct First<'a> {
    state: VerifyState,
    rest: &'a [u8],
}

/// The first state, whose length stands before it.
#[tactic(auto, unfolding(crate::specs::TableReading::first_state))]
fn first_state(bytes: &[u8]) -> Option<First<'_>>
    ensures { option_map (λ f. (f.state, f.rest.now)) result ≡ first_state bytes.now }
{
    if bytes.len() < 4 {
        return None;
    }
    let (length, rest) = split_u32(bytes);
    let length = length as usize;
    if rest.len() < length {
        return None;
    }
    let (state, rest) = rest.split_at(length);
    match VerifyState::decode(state) {
        Ok(state) => Some(First { state, rest }),
        Err(_) => None,
    }
}
