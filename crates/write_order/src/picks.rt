//! The blocks that words pick.

ghost use Rattle.std.specs.Prelude.{◌≡◌, ◌<◌, ◌%◌, IfOk, true, map};
ghost use Rattle.write_order.specs.Picks.{blocks_picked};

use crate::pass::Pass;
use std::alloc::{AllocError, Global};

/// The blocks that these words pick of so many, one for each word. With a map, each pass of
/// `blocks` words names each block once; without one (fio's `norandommap`) each word picks from all
/// of them.
///
/// The only error is want of memory: it takes room for the blocks that are picked, and with a map
/// for the list of all.
pub fn pick_blocks(
    alloc: Global,
    words: &[u64],
    blocks: u32,
    map: bool,
) -> Result<Vec<u32>, AllocError>
    requires { 0 < blocks }
    ensures { IfOk result (λ v. v.items ≡ blocks_picked map words.now blocks) }
{
    if map {
        pick_in_passes(alloc, words, blocks)
    } else {
        pick_freely(alloc, words, blocks)
    }
}

fn pick_in_passes(alloc: Global, words: &[u64], blocks: u32) -> Result<Vec<u32>, AllocError>
    requires { 0 < blocks }
    ensures { IfOk result (λ v. v.items ≡ blocks_picked true words.now blocks) }
{
    let mut pass = Pass::new(alloc, blocks)?;
    let mut picked = Vec::with_capacity(alloc, words.len())?;
    for word in words {
        picked.push_reserved(pass.pick(*word));
        pass.advance(*word);
    }
    Ok(picked)
}

fn pick_freely(alloc: Global, words: &[u64], blocks: u32) -> Result<Vec<u32>, AllocError>
    requires { 0 < blocks }
    ensures { IfOk result (λ v. v.items ≡ map (λ word. word % blocks) words.now) }
{
    words
        .iter()
        .map(|word| (*word % u64::from(blocks)) as u32)
        .collect(alloc)
}
