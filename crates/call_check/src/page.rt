// Every page, by itself and beside its block's words.
ghost use Rattle.std.specs.Prelude.{◌≤◌, ◌<◌, length};
ghost use Rattle.window.specs.Memory.{capacity, page_count_of};
ghost use Rattle.page_check.specs.Promises.{Decides};
ghost use Rattle.call_check.specs.Promises.{DenseEnough, PageMatches, WordsLent, DecidesAt, DecidesPages};

use crate::bits::bit_matches;
use block_marks::marks::retired_pages;
use block_marks::{BlockWords, block_words};
use page_base::{DENSE, PageWords, page_cells, page_words};
use page_check::page_sound;
use window::AdaptiveReceiverPacketWindow;
use window::memory::page_count;

// A live dense page has more than demote_at values when demote_at is not 0.
fn dense_enough(demote_at: u32, words: PageWords, retired: bool) -> bool
    ensures { Decides (DenseEnough demote_at words retired) result }
{
    if retired || words.kind != DENSE || demote_at == 0 {
        return true;
    }
    (demote_at as usize) < words::count(words.occupied)
}

// Page `page` beside its block's words: its bit among the nonempty pages, its mark, and its values if it is live and dense.
fn page_matches(
    w: AdaptiveReceiverPacketWindow,
    words: PageWords,
    block: BlockWords,
    page: usize,
) -> bool
    requires { page < 1024 }
    ensures { Decides (PageMatches w words block page) result }
{
    let bit = page % 64;
    if !bit_matches(block.nonempty, bit, words.occupied) {
        return false;
    }
    let marked = words::bit(block.retired, bit);
    if words.occupied == 0 && marked {
        return false;
    }
    let retired = retired_pages(w.retired_blocks, block.retired, page / 64);
    dense_enough(w.demote_at, words, words::bit(retired, bit))
}

// Page `page` of the window.
#[tactic(auto, using(crate::proofs::PageLaws::tested))]
fn page_at_sound(
    w: AdaptiveReceiverPacketWindow,
    sequences: &[u32],
    pages: &[u64],
    blocks: &[u64],
    page: usize,
) -> bool
    requires { WordsLent w.window_size pages.now blocks.now × (capacity w.window_size ≤ length sequences.now)
        × (page < page_count_of w.window_size) }
    ensures { DecidesAt w sequences.now pages.now blocks.now page result }
{
    let words = page_words(pages, page);
    let block = block_words(blocks, page / 64);
    if !page_matches(w, words, block, page) {
        return false;
    }
    let n = w.n as usize;
    page_sound(page_cells(sequences, page), words, n, w.window_size, page)
}

// Every page of the window.
pub fn pages_sound(
    w: AdaptiveReceiverPacketWindow,
    sequences: &[u32],
    pages: &[u64],
    blocks: &[u64],
) -> bool
    requires { WordsLent w.window_size pages.now blocks.now × (capacity w.window_size ≤ length sequences.now) }
    ensures { DecidesPages w sequences.now pages.now blocks.now result }
{
    for page in 0..page_count(w.window_size) {
        if !page_at_sound(w, sequences, pages, blocks, page) {
            return false;
        }
    }
    true
}
