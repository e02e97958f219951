// The header of the packet window, by value, its constants and `new`. The memory that it speaks of is lent by the caller (memory.rt);
// what a call refuses is in refusals.rt.
#![tactic(auto)]

pub mod answers;
pub mod memory;
pub mod refusals;

ghost use Rattle.std.specs.Prelude.{◌≡◌};
ghost use Rattle.window.specs.Lent.{lent_mut};
ghost use Rattle.window.specs.New.{NewBy, fresh as fresh_of};

use memory::{BLOCK_WORDS, PAGE_WORDS, block_count, clear_words, page_count};
use refusals::{Refusal, limits, long_enough};

#[repr(C)]
#[derive(Clone, Copy)]
pub struct AdaptiveReceiverPacketWindow {
    pub window_size: u32,
    // The cells of a sparse page: the source's N.
    pub n: u32,
    pub demote_at: u32,
    // Live values.
    pub len: u32,
    // Retired values still held.
    pub retired_held: u32,
    // The page that release inspects next.
    pub release_cursor: u32,
    // Where the acknowledge point is looked for from; set by the caller.
    pub base: u32,
    // The acknowledge point: the first sequence from the base that is not live.
    pub point: u32,
    // Bit b: a page of block b holds a value.
    pub nonempty_summary: u64,
    // Bit b: every page of block b counts as retired.
    pub retired_blocks: u64,
    // Demotions by remove and take_front.
    pub single_demotions: u64,
    // Demotions by remove_range.
    pub range_demotions: u64,
    pub promotions: u64,
}

// What a demotion is counted under: the removal of a single value, or that of a range.
#[derive(Clone, Copy)]
pub enum Cause {
    Single,
    Range,
}

impl AdaptiveReceiverPacketWindow {
    pub const PAGE_SLOTS: usize = 64;

    pub const MAX_RETIRED_RELEASED_PER_VISIT: usize = 256;

    // An empty window over the lent memory, or the first refusal that applies.
    pub fn new(
        sequences: &mut [u32],
        values: &mut [u32],
        pages: &mut [u64],
        blocks: &mut [u64],
        window_size: u32,
        n: u32,
        demote_at: u32,
    ) -> Result<AdaptiveReceiverPacketWindow, Refusal>
        ensures { NewBy window_size n demote_at (lent_mut sequences) (lent_mut values) (lent_mut pages) (lent_mut blocks) result }
    {
        limits(window_size, n, demote_at)?;
        if !long_enough(
            window_size,
            sequences.len(),
            values.len(),
            pages.len(),
            blocks.len(),
        ) {
            return Err(Refusal::ShortMemory);
        }
        clear_words(pages, PAGE_WORDS * page_count(window_size));
        clear_words(blocks, BLOCK_WORDS * block_count(window_size));
        Ok(Self::fresh(window_size, n, demote_at))
    }

    // The header of an empty window.
    pub fn fresh(window_size: u32, n: u32, demote_at: u32) -> AdaptiveReceiverPacketWindow
        ensures { result ≡ fresh_of window_size n demote_at }
    {
        AdaptiveReceiverPacketWindow {
            window_size,
            n,
            demote_at,
            len: 0,
            retired_held: 0,
            release_cursor: 0,
            base: 0,
            point: 0,
            nonempty_summary: 0,
            retired_blocks: 0,
            single_demotions: 0,
            range_demotions: 0,
            promotions: 0,
        }
    }
}
