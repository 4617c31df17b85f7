//! One pass over all blocks at random, each block once.

ghost use Rattle.std.specs.Prelude.{◌≡◌, ℕ, ◌+◌, ◌<◌, ◌≤◌, ◌%◌, IfOk, length, take, set, slice_index};
ghost use Rattle.std.specs.List.{range_with_len};

use std::alloc::{AllocError, Global};
use std::marker::Model;

/// The blocks that a pass has yet to write. When none is left, the next pass begins.
///
/// The list names all blocks: first those that are left, and behind them what a new pass has
/// at those indices. So a new pass begins with no list to fill.
#[derive(Drop)]
pub struct Pass {
    blocks: u32,
    left: u32,
    list: Vec<u32>,
}

impl Model for Pass {
    ghost use Rattle.std.specs.Prelude.{take};
    ghost use Rattle.write_order.specs.Passes.{PassLeft, IsReadyAnew};

    ghost Value = { PassLeft };

    ghost view = { λ p. record { blocks = p.blocks; left = take p.left p.list.items } };

    ghost invariant = { IsReadyAnew };
}

impl Pass {
    ghost use Rattle.write_order.specs.Picks.{block_with_map};
    ghost use Rattle.write_order.specs.Passes.{pass_before};

    /// The first pass over so many blocks. It takes 4 bytes for each of them.
    pub fn new(alloc: Global, blocks: u32) -> Result<Pass, AllocError>
        requires { 0 < blocks }
        ensures { IfOk result (λ pass. (words : ℕ → ℕ) → pass ≡ pass_before words blocks 0) }
    {
        let list = all_blocks(alloc, blocks)?;
        Ok(Pass {
            blocks,
            left: blocks,
            list,
        })
    }

    /// The block that the next word picks.
    pub fn pick(&self, word: u64) -> u32
        ensures { (words : ℕ → ℕ) (k : ℕ) → self.now ≡ pass_before words self.now.blocks k
            → word ≡ words k
            → result ≡ block_with_map words self.now.blocks k }
    {
        self.list[index_of(self.left, word) as usize]
    }

    /// Goes on by the block that the next word picks, in the same few steps wherever the pass is.
    pub fn advance(&mut self, word: u64)
        ensures { (words : ℕ → ℕ) (k : ℕ) → self.old ≡ pass_before words self.old.blocks k
            → word ≡ words k
            → self.new ≡ pass_before words self.old.blocks (k + 1) }
    {
        let index = index_of(self.left, word);
        let last = self.left - 1;
        take_out(&mut self.list, index, last);
        self.left = last;
        if self.left == 0 {
            self.left = self.blocks;
        }
    }
}

/// The numbers of so many blocks, in their order.
fn all_blocks(alloc: Global, blocks: u32) -> Result<Vec<u32>, AllocError>
    ensures { IfOk result (λ list. list.items ≡ range_with_len 0 blocks) }
{
    let mut list = Vec::with_capacity(alloc, blocks as usize)?;
    for block in 0..blocks {
        list.push_reserved(block);
    }
    Ok(list)
}

/// Which of the blocks that are left a word picks.
fn index_of(left: u32, word: u64) -> u32
    requires { 0 < left }
    ensures value { result ≡ word % left }
    ensures range { result < left }
{
    (word % u64::from(left)) as u32
}

/// Takes one block out: the last that is left moves to its index, and the index of the last gets
/// what a new pass has there.
fn take_out(list: &mut [u32], index: u32, last: u32)
    requires one_left { index ≤ last }
    requires within { last < length list.old }
    ensures { list.new ≡ set (set list.old index (slice_index list.old last)) last last }
{
    list[index as usize] = list[last as usize];
    list[last as usize] = last;
}
