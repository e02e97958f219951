// Every block's words.
ghost use Rattle.std.specs.Prelude.{◌≡◌, ◌*◌, ◌≤◌, ◌<◌};
ghost use Rattle.window.specs.Memory.{block_count_of};
ghost use Rattle.call_check.specs.Clauses.{pages_in_block_of};
ghost use Rattle.call_check.specs.Promises.{WordsLent, DecidesBlock, DecidesBlocks};

use crate::bits::{bit_matches, no_bits_from};
use crate::values::values_where;
use block_marks::block_words;
use window::AdaptiveReceiverPacketWindow;
use window::memory::{block_count, page_count};

// How many of the first `count` pages are in block `block`.
fn pages_in_block(count: usize, block: usize) -> usize
    requires { (count ≤ 1024) × (64 * block ≤ count) }
    ensures { result ≡ pages_in_block_of count block }
{
    (count - 64 * block).min(64)
}

// Block `block`: its bit in the summary, no bits past the last page, and its live values. (That no page has a mark while no retired
// value is held is not tested: it follows from the clauses on marks and on retired_held.)
#[tactic(auto, using(crate::proofs::BlockLaws::tested))]
fn block_sound(w: AdaptiveReceiverPacketWindow, pages: &[u64], blocks: &[u64], block: usize) -> bool
    requires { WordsLent w.window_size pages.now blocks.now × (block < block_count_of w.window_size) }
    ensures { DecidesBlock w pages.now blocks.now block result }
{
    let words = block_words(blocks, block);
    let n = pages_in_block(page_count(w.window_size), block);
    if !bit_matches(w.nonempty_summary, block, words.nonempty) {
        return false;
    }
    if !no_bits_from(words.nonempty, n) {
        return false;
    }
    if !no_bits_from(words.retired, n) {
        return false;
    }
    let live = values_where(pages, blocks, w.retired_blocks, 64 * block, n, 0);
    words.live == live as u64
}

// Every block of the window.
pub fn blocks_sound(w: AdaptiveReceiverPacketWindow, pages: &[u64], blocks: &[u64]) -> bool
    requires { WordsLent w.window_size pages.now blocks.now }
    ensures { DecidesBlocks w pages.now blocks.now result }
{
    for block in 0..block_count(w.window_size) {
        if !block_sound(w, pages, blocks, block) {
            return false;
        }
    }
    true
}
