// Whole pages and blocks retired by marks: their values are live no longer, and stay where they are until they are released.
// run.rt has a run of whole pages.
#![tactic(auto)]

pub mod run;

ghost use Rattle.std.specs.Prelude.{◌≡◌, ℕ, ◌+◌, ◌*◌, ◌%◌, ◌^◌, ◌<◌, ◌≤◌, length};
ghost use Rattle.window.specs.Memory.{block_count_of, words_per_block, RowIn};
ghost use Rattle.model.specs.Steps.{set_held};
ghost use Rattle.block_retire.specs.Retire.{values_of, without_live};
ghost use Rattle.block_retire.specs.Promises.{PagesNamed, BlocksNamed, RetiresInBlock, RetiresBlock, RetiresBlocks, RetiresAll};

use block_marks::marks::{mark_pages, newly_retired, settle_retired, split_retired_block};
use block_marks::{BlockWords, Change, block_words, put_block_words, sub_live};
use page_base::page_words;
use window::AdaptiveReceiverPacketWindow;
use window::memory::{BLOCK_WORDS, block_count};

// `count` retired values more held, modulo 2^32.
fn more_held(w: AdaptiveReceiverPacketWindow, count: u32) -> AdaptiveReceiverPacketWindow
    ensures { result ≡ set_held w ((w.retired_held + count) % 2 ^ 32) }
{
    let mut window = w;
    window.retired_held = w.retired_held.wrapping_add(count);
    window
}

// The values that the pages of a mask hold, in block `block`.
fn values_in(pages: &[u64], block: usize, mask: u64) -> usize
    requires { (block < 16) × PagesNamed pages.now block mask }
    ensures { result ≡ values_of pages.now block mask }
{
    let mut left = mask;
    let mut values: usize = 0;
    while left != 0 {
        let bit = words::lowest(left, 0);
        let page = 64 * block + bit;
        let words = page_words(pages, page);
        values += words::count(words.occupied);
        left = words::clear(left, bit);
    }
    values
}

// The pages of a mask in block `block` get marks; those that hold a value and had none are retired.
pub fn retire_pages_in_block(
    w: AdaptiveReceiverPacketWindow,
    pages: &[u64],
    blocks: &mut [u64],
    block: usize,
    mask: u64,
) -> AdaptiveReceiverPacketWindow
    requires { (block < 16) × RowIn words_per_block block blocks.old × PagesNamed pages.now block mask }
    ensures { RetiresInBlock w pages.now blocks.old block mask result blocks.new }
{
    let change = split_retired_block(w, block_words(blocks, block), block);
    let window = change.window;
    let split = change.block;
    let newly = newly_retired(split, mask);
    let removed = values_in(pages, block, newly) as u32;
    let fewer = sub_live(window, mark_pages(split, newly), removed);
    put_block_words(blocks, block, fewer.block);
    more_held(fewer.window, removed)
}

// The lowest 32 bits of a count of live values: on a sound window, the count.
fn low(live: u64) -> u32
    ensures { result ≡ live % 2 ^ 32 }
{
    (live % 0x1_0000_0000) as u32
}

// A block gets its mark, and its live values are retired.
fn retire_block(w: AdaptiveReceiverPacketWindow, b: BlockWords, block: usize) -> Change
    requires { block < 16 }
    ensures { RetiresBlock w b block result }
{
    let live = low(b.live);
    let mut marked = w;
    marked.retired_blocks = words::set(w.retired_blocks, block);
    let fewer = sub_live(marked, b, live);
    Change {
        window: more_held(fewer.window, live),
        block: fewer.block,
    }
}

// Whole blocks (a block mask) retired with one mark each. A block that has its mark holds no live value.
pub fn retire_blocks(
    w: AdaptiveReceiverPacketWindow,
    blocks: &mut [u64],
    mask: u64,
) -> AdaptiveReceiverPacketWindow
    requires { BlocksNamed blocks.old mask }
    ensures { RetiresBlocks w blocks.old mask result blocks.new }
{
    let mut window = w;
    let mut left = mask & !w.retired_blocks;
    while left != 0 {
        let block = words::lowest(left, 0);
        let change = retire_block(window, block_words(blocks, block), block);
        put_block_words(blocks, block, change.block);
        window = change.window;
        left = words::clear(left, block);
    }
    window
}

// No live value in the first `count` blocks.
fn clear_live(blocks: &mut [u64], count: usize)
    requires { (count ≤ 16) × (words_per_block * count ≤ length blocks.old) }
    ensures { blocks.new ≡ without_live count blocks.old }
{
    for block in 0..count {
        blocks[BLOCK_WORDS * block + 2] = 0;
    }
}

// Every value retired: every block gets its mark.
pub fn retire_all(
    w: AdaptiveReceiverPacketWindow,
    blocks: &mut [u64],
) -> AdaptiveReceiverPacketWindow
    requires { (w.window_size ≤ 65536) × (words_per_block * block_count_of w.window_size ≤ length blocks.old) }
    ensures { RetiresAll w blocks.old result blocks.new }
{
    let count = block_count(w.window_size);
    clear_live(blocks, count);
    let mut window = more_held(w, w.len);
    window.len = 0;
    window.retired_blocks = words::span(0, count);
    settle_retired(window)
}
