// The header: its cursor, its masks and its counts.
ghost use Rattle.std.specs.Prelude.{◌≤◌};
ghost use Rattle.page_check.specs.Promises.{Decides};
ghost use Rattle.call_check.specs.Promises.{HeaderWords, HeaderCounts, WordsLent, DecidesHeader};

use crate::bits::no_bits_from;
use crate::values::values_where;
use window::AdaptiveReceiverPacketWindow;
use window::memory::{block_count, page_count};

// release_cursor is a page; no bits past the last block; with no retired value held, no block has its mark.
#[tactic(auto, using(crate::proofs::HeaderLaws::sizes))]
fn words_sound(w: AdaptiveReceiverPacketWindow) -> bool
    requires { w.window_size ≤ 65536 }
    ensures { Decides (HeaderWords w) result }
{
    if page_count(w.window_size) <= w.release_cursor as usize {
        return false;
    }
    let blocks = block_count(w.window_size);
    if !no_bits_from(w.nonempty_summary, blocks) {
        return false;
    }
    if !no_bits_from(w.retired_blocks, blocks) {
        return false;
    }
    if w.retired_held != 0 {
        return true;
    }
    w.retired_blocks == 0
}

// len and retired_held are the sums.
#[tactic(auto, using(crate::proofs::HeaderLaws::sizes))]
fn counts_sound(w: AdaptiveReceiverPacketWindow, pages: &[u64], blocks: &[u64]) -> bool
    requires { WordsLent w.window_size pages.now blocks.now }
    ensures { Decides (HeaderCounts w pages.now blocks.now) result }
{
    let count = page_count(w.window_size);
    let live = values_where(pages, blocks, w.retired_blocks, 0, count, 0);
    if w.len as usize != live {
        return false;
    }
    let retired = values_where(pages, blocks, w.retired_blocks, 0, count, 1);
    w.retired_held as usize == retired
}

// The whole header.
#[tactic(auto, using(crate::proofs::HeaderLaws::whole))]
pub fn header_sound(w: AdaptiveReceiverPacketWindow, pages: &[u64], blocks: &[u64]) -> bool
    requires { WordsLent w.window_size pages.now blocks.now }
    ensures { DecidesHeader w pages.now blocks.now result }
{
    if !words_sound(w) {
        return false;
    }
    counts_sound(w, pages, blocks)
}
