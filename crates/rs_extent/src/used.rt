//! The set of the used blocks of a disk.
ghost use Rattle.std.specs.Prelude.{ℕ, ◌≡◌, ◌↔◌, ◌<◌, ◌≤◌, true, false, nat_lt, length, IsTrue, IfOk, MatchOption};
ghost use Rattle.rs_extent.specs.Blocks.{is_used, IsFreeRun, IsFree, IsTaken, IsLowest, Sets};
ghost use Rattle.rs_extent.specs.Extents.{CanTake, AreTaken, CanGive, AreGiven};

use crate::Extent;
use crate::words::{all_set, lowest_run, set_bits, skip_zeros};
use std::alloc::{AllocError, Global};
use std::marker::Model;

/// The set of the used blocks of a disk, one bit per block.
///
/// Contracts see a list with a yes or no per block. A search looks at 64 blocks at a time, and begins at the first word
/// that may have a free one. The cost of taking or giving back an extent grows with its number of blocks.
#[derive(Debug, Drop)]
pub struct Used {
    /// A bit per block, set if the block is free.
    free: Vec<u64>,
    block_count: u32,
    /// No block in the words below this one is free. A search begins here.
    full_words: usize,
}

impl Model for Used {
    ghost use Rattle.std.specs.Prelude.{List, Bool};
    ghost use Rattle.rs_extent.specs.Bitmap.{used_blocks, IsBitmap};

    ghost Value = { List Bool };

    ghost view = { λ u. used_blocks u.block_count u.free.items };

    ghost invariant = { λ u. IsBitmap u.block_count u.free.items u.full_words };
}

impl Used {
    /// Returns the set for a disk of `blocks` blocks. The first two are used, and all others free.
    ///
    /// It takes one bit of memory per block. No later call takes memory.
    ///
    /// # Errors
    ///
    /// [`AllocError`] if the memory is refused.
    pub fn new(alloc: Global, blocks: u32) -> Result<Used, AllocError>
        requires { 2 ≤ blocks }
        ensures size { IfOk result (λ used. length used ≡ blocks) }
        ensures first_two { IfOk result (λ used. (b : ℕ) → b < blocks
            → is_used used b ≡ nat_lt b 2) }
    {
        let mut free = Vec::new(alloc);
        free.resize(blocks.div_ceil(64) as usize, 0)?;
        set_bits(&mut free, 2, blocks as usize, true);
        Ok(Used {
            free,
            block_count: blocks,
            full_words: 0,
        })
    }

    /// Returns the number of blocks of the disk.
    pub fn blocks(&self) -> u32
        ensures { result ≡ length self.now }
    {
        self.block_count
    }

    /// Returns whether all blocks of `extent` are on the disk and free, as [`Used::take`] requires.
    pub fn is_free(&self, extent: Extent) -> bool
        ensures { IsTrue result ↔ IsFree self.now extent }
    {
        if extent.blocks == 0 {
            return true;
        }
        let first = extent.first as usize;
        let end = first + extent.blocks as usize;
        end <= self.blocks() as usize && all_set(&self.free, first, end)
    }

    /// Adds the blocks of `extent`, and no others. All of them are free.
    pub fn take(&mut self, extent: Extent)
        requires { IsFree self.old extent }
        ensures { Sets self.old self.new extent true }
    {
        if extent.blocks == 0 {
            return;
        }
        let first = extent.first as usize;
        set_bits(&mut self.free, first, first + extent.blocks as usize, false);
        // It takes no more steps than blocks were taken, so the cost grows with these alone.
        self.full_words = skip_zeros(&self.free, self.full_words, extent.blocks);
    }

    /// Removes the blocks of `extent`, and no others. All of them are on the disk and used.
    pub fn give(&mut self, extent: Extent)
        requires { IsTaken self.old extent }
        ensures { Sets self.old self.new extent false }
    {
        if extent.blocks == 0 {
            return;
        }
        let first = extent.first as usize;
        set_bits(&mut self.free, first, first + extent.blocks as usize, true);
        self.full_words = self.full_words.min(first / 64);
    }

    /// Adds the blocks of these extents, and no others. All of them are free, and no two extents have a block in
    /// common.
    pub fn take_each(&mut self, extents: &[Extent])
        requires { CanTake self.old extents.now }
        ensures { AreTaken self.old self.new extents.now }
    {
        let mut i = extents.len();
        while i > 0 {
            i -= 1;
            self.take(extents[i]);
        }
    }

    /// Removes the blocks of these extents, and no others. All of them are used, and no two extents have a block in
    /// common.
    pub fn give_each(&mut self, extents: &[Extent])
        requires { CanGive self.old extents.now }
        ensures { AreGiven self.old self.new extents.now }
    {
        let mut i = extents.len();
        while i > 0 {
            i -= 1;
            self.give(extents[i]);
        }
    }

    /// Returns the lowest run of `blocks` free blocks, or `None` if the disk has no such run.
    pub fn find(&self, blocks: u32) -> Option<Extent>
        requires { 1 ≤ blocks }
        ensures { MatchOption result ((first : ℕ) → ¬ IsFreeRun self.now first blocks)
            (IsLowest self.now blocks) }
    {
        let first = lowest_run(&self.free, self.full_words, blocks)?;
        Some(Extent { first, blocks })
    }

    /// Returns the length in blocks of the longest run of free blocks, 0 if no block is free.
    pub fn longest_free(&self) -> u32
        ensures some { (first : ℕ) × IsFreeRun self.now first result }
        ensures longest { (first n : ℕ) → IsFreeRun self.now first n → n ≤ result }
    {
        // If a run of some length is free, so is every shorter one: halving finds the longest.
        let mut served = 0;
        let mut most = self.blocks();
        while served < most {
            let middle = most - (most - served) / 2;
            if self.find(middle).is_some() {
                served = middle;
            } else {
                most = middle - 1;
            }
        }
        served
    }
}
