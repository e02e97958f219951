// Retired marks: a page is retired if it is marked, or its block is.
ghost use Rattle.std.specs.Prelude.{◌≡◌, ◌/◌, ◌<◌, eqb};
ghost use Rattle.window.specs.Memory.{words_per_block, RowIn};
ghost use Rattle.model.specs.Steps.{drop_block_marks, split_block};
ghost use Rattle.block_marks.specs.Blocks.{block_words_at};
ghost use Rattle.block_marks.specs.Marks.{retired_pages_of, page_retired_of, newly_marked, with_marks, without_mark};
ghost use Rattle.block_marks.specs.Promises.{Changes, ChangesHeader};

use crate::{BlockWords, Change};
use window::AdaptiveReceiverPacketWindow;
use window::memory::BLOCK_WORDS;

// The retired pages of a block, with `retired` its marks on pages: all of them if the block is marked.
#[tactic(auto, unfolding(crate::specs::Marks::retired_pages_of))]
pub fn retired_pages(retired_blocks: u64, retired: u64, block: usize) -> u64
    requires { block < 64 }
    ensures { result ≡ retired_pages_of retired_blocks retired block }
{
    if words::bit(retired_blocks, block) {
        return u64::MAX;
    }
    retired
}

// Whether a page is retired.
#[tactic(auto, unfolding(crate::specs::Blocks::block_words_at, crate::specs::Marks::page_retired_of))]
pub fn page_retired(blocks: &[u64], retired_blocks: u64, page: usize) -> bool
    requires { (page < 1024) × RowIn words_per_block (page / 64) blocks.now }
    ensures { result ≡ eqb (page_retired_of retired_blocks (block_words_at blocks.now (page / 64)) page) 1 }
{
    let block = page / 64;
    let retired = blocks[BLOCK_WORDS * block + 1];
    words::bit(retired_pages(retired_blocks, retired, block), page % 64)
}

// A block's mark turned into marks on its nonempty pages.
#[tactic(auto, unfolding(model::specs::Steps::split_block))]
pub fn split_retired_block(w: AdaptiveReceiverPacketWindow, b: BlockWords, block: usize) -> Change
    requires { block < 16 }
    ensures { Changes (λ v. split_block v block) w b block result }
{
    let mut window = w;
    let mut words = b;
    if words::bit(w.retired_blocks, block) {
        window.retired_blocks = words::clear(w.retired_blocks, block);
        words.retired = b.nonempty;
    }
    Change {
        window,
        block: words,
    }
}

// With no retired value held, all block marks drop.
pub fn settle_retired(w: AdaptiveReceiverPacketWindow) -> AdaptiveReceiverPacketWindow
    ensures { ChangesHeader drop_block_marks w result }
{
    let mut window = w;
    if w.retired_held == 0 {
        window.retired_blocks = 0;
    }
    window
}

// Those of `pages` that hold a value and are not marked yet.
pub fn newly_retired(b: BlockWords, pages: u64) -> u64
    ensures { result ≡ newly_marked b pages }
{
    b.nonempty & !b.retired & pages
}

// Marks on `pages`.
pub fn mark_pages(b: BlockWords, pages: u64) -> BlockWords
    ensures { result ≡ with_marks b pages }
{
    let mut words = b;
    words.retired = b.retired | pages;
    words
}

// No mark on page `bit` of the block.
#[tactic(auto, unfolding(crate::specs::Marks::without_mark))]
pub fn unmark_page(b: BlockWords, bit: usize) -> BlockWords
    requires { bit < 64 }
    ensures { result ≡ without_mark b bit }
{
    let mut words = b;
    words.retired = words::clear(b.retired, bit);
    words
}
