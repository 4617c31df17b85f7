//! What a check finds on honest disks. The function has nothing to run.

ghost use Rattle.net_world.specs.Claims.{OfEachWorld};
ghost use Rattle.net_world.specs.Headline.{FewFaults, NoFaults};

use crate::passes::{checked_states_were_sent, held_states_were_sent, sent_states_were_taken};
use crate::world_law::each_world_is_a_trace;
use disk_model::block_law;
use engine::{overlap_law, sets_law, taken_law};
use server_core::{counts_the_done, legal_histories, open_check_is_last, starts, with_was_heard};
use write_order::{writes_fill_their_blocks, writes_stay_in_the_region};

/// Where no sector of a file rots, and each write to it that is told as done is in it by then, a check
/// of it with a state faults only blocks to which a write was in flight at the taking; where each write
/// that lands in it has landed with all its sectors, it faults none. Nothing is asked of other files.
pub fn honest_disks()
    ensures few { OfEachWorld FewFaults }
    ensures none { OfEachWorld NoFaults }
{
    each_world_is_a_trace();
    sent_states_were_taken();
    verify_state::found_states();
    held_states_were_sent();
    checked_states_were_sent();
    counts_the_done();
    with_was_heard();
    open_check_is_last();
    starts();
    legal_histories();
    taken_law();
    overlap_law();
    sets_law();
    block_law();
    writes_fill_their_blocks();
    writes_stay_in_the_region();
}
