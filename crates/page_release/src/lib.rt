// Values of a retired page handed back: for a release visit, and for an insert into the page.
#![tactic(auto)]

ghost use Rattle.std.specs.Prelude.{◌≡◌, ◌+◌, ◌*◌, ◌/◌, ◌≤◌, ◌<◌, length};
ghost use Rattle.window.specs.Memory.{words_per_page, words_per_block, RowIn};
ghost use Rattle.page_release.specs.Promises.{settled_words, ReleasesPage, Revives};

use block_marks::marks::split_retired_block;
use block_marks::{block_words, put_block_words};
use page_base::{NONE, PageWords, page_cells, page_words};
use page_remove::drain::drain;
use page_store::store::store_released;
use window::AdaptiveReceiverPacketWindow;
use window::memory::PAGE_SLOTS;

// The header after values of a page were handed back, how many they were, and whether each occupied position met had a cell.
// `sound` is a flag beside them, and no Result around them, since what was handed back before is told on an unsound page too.
#[derive(Clone, Copy)]
pub struct PageReleased {
    pub window: AdaptiveReceiverPacketWindow,
    pub count: usize,
    pub sound: bool,
}

// An emptied page gets kind 0 and empty words.
#[tactic(auto, unfolding(crate::specs::Promises::settled_words))]
fn unless_emptied(words: PageWords) -> PageWords
    ensures { result ≡ settled_words words }
{
    if words.occupied == 0 {
        return PageWords {
            kind: NONE,
            occupied: 0,
            filled: 0,
        };
    }
    words
}

// The lowest values of page `page`, at most `limit`, into `returned` from `at` on.
pub fn release_page(
    w: AdaptiveReceiverPacketWindow,
    sequences: &[u32],
    values: &[u32],
    pages: &mut [u64],
    blocks: &mut [u64],
    returned: &mut [u32],
    page: usize,
    n: usize,
    at: usize,
    limit: usize,
) -> PageReleased
    requires page_bound { (page < 1024) × (64 * page + 64 ≤ length sequences.now) × (64 * page + 64 ≤ length values.now) × RowIn words_per_page page pages.old }
    requires row_in { RowIn words_per_block (page / 64) blocks.old × (n < 64) × (limit ≤ 256) × (at + limit ≤ length returned.old) }
    ensures { ReleasesPage w n sequences.now values.now pages.old blocks.old returned.old page at limit result pages.new blocks.new returned.new }
{
    let words = page_words(pages, page);
    let d = drain(
        page_cells(sequences, page),
        page_cells(values, page),
        returned,
        words,
        n,
        u64::MAX,
        at,
        limit,
    );
    let left = unless_emptied(d.words);
    let window = store_released(w, pages, blocks, page, left, d.count as u32);
    PageReleased {
        window,
        count: d.count,
        sound: d.sound,
    }
}

// Page `page`, which is retired, made live again: its block's mark is split, and what the page still holds is handed back.
pub fn revive(
    w: AdaptiveReceiverPacketWindow,
    sequences: &[u32],
    values: &[u32],
    pages: &mut [u64],
    blocks: &mut [u64],
    returned: &mut [u32],
    page: usize,
    n: usize,
) -> PageReleased
    requires page_bound { (page < 1024) × (64 * page + 64 ≤ length sequences.now) × (64 * page + 64 ≤ length values.now) × RowIn words_per_page page pages.old }
    requires row_in { RowIn words_per_block (page / 64) blocks.old × (n < 64) × (64 ≤ length returned.old) }
    ensures { Revives w n sequences.now values.now pages.old blocks.old returned.old page result pages.new blocks.new returned.new }
{
    let block = page / 64;
    let change = split_retired_block(w, block_words(blocks, block), block);
    let window = change.window;
    let kept = change.block;
    put_block_words(blocks, block, kept);
    if !words::bit(kept.retired, page % 64) {
        return PageReleased {
            window,
            count: 0,
            sound: true,
        };
    }
    release_page(
        window, sequences, values, pages, blocks, returned, page, n, 0, PAGE_SLOTS,
    )
}
