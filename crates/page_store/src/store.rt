// The words of a changed page written, and the bookkeeping for it.
ghost use Rattle.std.specs.Prelude.{◌≡◌, ◌/◌, ◌<◌};
ghost use Rattle.window.specs.Memory.{words_per_page, words_per_block, RowIn};
ghost use Rattle.block_marks.specs.Blocks.{block_words_at};
ghost use Rattle.page_store.specs.Promises.{Inserted, Removed, Released, holds as holds_of, Stores};

use crate::{inserted, released, removed};
use block_marks::{BlockWords, Change, block_words, put_block_words};
use page_base::{Left, PageWords, put_page_words};
use window::{AdaptiveReceiverPacketWindow, Cause};

// Whether the words are those of a page that holds a value.
fn holds(words: PageWords) -> bool
    ensures { result ≡ holds_of words }
{
    words.occupied != 0
}

// The words of a changed page written, and those of its block, which `change` makes of them; the header that it gives.
fn store<F: FnOnce(BlockWords) -> Change>(
    pages: &mut [u64],
    blocks: &mut [u64],
    page: usize,
    words: PageWords,
    change: F,
) -> AdaptiveReceiverPacketWindow
    requires rows { (page < 1024) × RowIn words_per_page page pages.old × RowIn words_per_block (page / 64) blocks.old }
    requires callable { F.pre change (block_words_at blocks.old (page / 64)) }
    ensures { Stores (F.post change (block_words_at blocks.old (page / 64))) pages.old blocks.old page words result pages.new blocks.new }
{
    let block = page / 64;
    let changed = change(block_words(blocks, block));
    put_page_words(pages, page, words);
    put_block_words(blocks, block, changed.block);
    changed.window
}

// A page that got a new live value.
pub fn store_inserted(
    w: AdaptiveReceiverPacketWindow,
    pages: &mut [u64],
    blocks: &mut [u64],
    page: usize,
    words: PageWords,
    promoted: bool,
) -> AdaptiveReceiverPacketWindow
    requires { (page < 1024) × RowIn words_per_page page pages.old × RowIn words_per_block (page / 64) blocks.old }
    ensures { Stores (Inserted w (block_words_at blocks.old (page / 64)) page promoted) pages.old blocks.old page words result pages.new blocks.new }
{
    store(pages, blocks, page, words, |block| {
        inserted(w, block, page, promoted)
    })
}

// A page that lost `count` live values, and what was left of it.
pub fn store_removed(
    w: AdaptiveReceiverPacketWindow,
    pages: &mut [u64],
    blocks: &mut [u64],
    page: usize,
    words: PageWords,
    left: Left,
    cause: Cause,
    count: u32,
) -> AdaptiveReceiverPacketWindow
    requires { (page < 1024) × RowIn words_per_page page pages.old × RowIn words_per_block (page / 64) blocks.old }
    ensures { Stores (Removed w (block_words_at blocks.old (page / 64)) page left cause count) pages.old blocks.old page words result pages.new blocks.new }
{
    store(pages, blocks, page, words, |block| {
        removed(w, block, page, left, cause, count)
    })
}

// A retired page that lost `count` values.
pub fn store_released(
    w: AdaptiveReceiverPacketWindow,
    pages: &mut [u64],
    blocks: &mut [u64],
    page: usize,
    words: PageWords,
    count: u32,
) -> AdaptiveReceiverPacketWindow
    requires { (page < 1024) × RowIn words_per_page page pages.old × RowIn words_per_block (page / 64) blocks.old }
    ensures { Stores (Released w (block_words_at blocks.old (page / 64)) page (holds_of words) count) pages.old blocks.old page words result pages.new blocks.new }
{
    store(pages, blocks, page, words, |block| {
        released(w, block, page, holds(words), count)
    })
}
