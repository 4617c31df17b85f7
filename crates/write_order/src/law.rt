//! Laws of the write order, over all jobs and all their writes. The functions have nothing to run.

ghost use Rattle.write_order.specs.Laws.{PassesNameEachBlockOnce, WritesStayInTheRegion, WritesFillTheirBlocks, StampsTellSectorsApart, StampsTellWritesApart};
ghost use Rattle.std.specs.Prelude.{◌≡◌, true, false, [], ◌∷◌};
ghost use Rattle.write_order.specs.Picks.{blocks_picked};

/// A job with a map names each of its blocks once in every pass: a pass begins with each write
/// whose number is a multiple of `blocks`, and has as many writes as there are blocks.
pub fn passes_name_each_block_once()
    ensures { PassesNameEachBlockOnce }
{}

/// No write goes past the last block of its job, in any order.
pub fn writes_stay_in_the_region()
    ensures { WritesStayInTheRegion }
{}

/// A write puts just as many bytes as a block of its job has, stamps or a pattern.
pub fn writes_fill_their_blocks()
    ensures { WritesFillTheirBlocks }
{}

/// The bytes of a stamp say whose write it is, which one, into which block, and for which sector of
/// it: no two sectors that differ in any of these have the same bytes, and so no two stamped
/// blocks.
pub fn stamps_tell_writes_apart()
    ensures sectors { StampsTellSectorsApart }
    ensures blocks { StampsTellWritesApart }
{}

/// Which of three blocks the word 7 picks, four times over. With a map: 7 counts round to index 1
/// of 0, 1, 2; the last moves there, so that 0, 2 are left, of which it picks 2; then 0 alone; and
/// the fourth begins the next pass. Without a map it picks block 1 each time.
#[tactic(auto, unfolding(crate::specs::Picks::block_with_map))]
pub fn examples()
    ensures with_map { blocks_picked true (7 ∷ 7 ∷ 7 ∷ 7 ∷ []) 3 ≡ 1 ∷ 2 ∷ 0 ∷ 1 ∷ [] }
    ensures without_map { blocks_picked false (7 ∷ 7 ∷ 7 ∷ 7 ∷ []) 3 ≡ 1 ∷ 1 ∷ 1 ∷ 1 ∷ [] }
{}
