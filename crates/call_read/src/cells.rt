// The next cell in use of a page that is not retired, in page order, then cell order, with the number of retired words read on the way.
ghost use Rattle.std.specs.Prelude.{◌≡◌, ◌+◌, ◌-◌, ◌*◌, ◌/◌, ◌<◌, ◌≤◌, length, IfSome, unwrap_or};
ghost use Rattle.window.specs.Memory.{capacity, page_count_of, block_count_of, words_per_page, words_per_block, RowIn};
ghost use Rattle.call_read.specs.Promises.{entered_at, cell_in_page_of, cell_in_block_of, FindsCell};

use block_search::{Select, bits_within, selected_pages};
use page_base::page_words;
use window::AdaptiveReceiverPacketWindow;
use window::memory::PAGE_SLOTS;

// A block that was entered. live: its pages that hold a value and are not retired. reads: the retired words read so far, its own too.
#[derive(Clone, Copy)]
pub struct Entered {
    pub live: u64,
    pub reads: u32,
}

// The cell found, if there is one, and the retired words read.
#[derive(Clone, Copy)]
pub struct NextCell {
    pub cell: Option<usize>,
    pub reads: u32,
}

// Enters a block: its retired word is read, and the read counted. Nothing else of a step reads one.
fn enter_block(blocks: &[u64], retired_blocks: u64, block: usize, reads: u32) -> Entered
    requires { (block < 16) × RowIn words_per_block block blocks.now × (reads < 16) }
    ensures { result ≡ entered_at blocks.now retired_blocks block reads }
{
    Entered {
        live: selected_pages(blocks, retired_blocks, block, Select::Live),
        reads: reads + 1,
    }
}

// The first cell in use of page `page` from its cell `from` on, if it is one of the live pages of its block.
#[tactic(auto, using(crate::proofs::PageCellLaws::paging))]
fn cell_in_page(pages: &[u64], live: u64, page: usize, from: usize) -> Option<usize>
    requires { (page < 1024) × (from < 64) × RowIn words_per_page page pages.now }
    ensures within { IfSome result (λ c. c < 64) }
    ensures first { unwrap_or result 64 ≡ cell_in_page_of pages.now live page from }
{
    if !words::bit(live, page % 64) {
        return None;
    }
    let words = page_words(pages, page);
    let cell = words::lowest(words.filled, from);
    if PAGE_SLOTS <= cell {
        return None;
    }
    Some(cell)
}

// The first cell in use from `start` up to `end` of the live pages of block `block`. No other page is read.
fn cell_in_block(pages: &[u64], live: u64, block: usize, start: usize, end: usize) -> Option<usize>
    requires { (start < end) × (end ≤ 65536) × (start / 4096 ≤ block) × (block ≤ (end - 1) / 4096)
        × (words_per_page * ((end + 63) / 64) ≤ length pages.now) }
    ensures within { IfSome result (λ q. q < end) }
    ensures first { unwrap_or result end ≡ cell_in_block_of pages.now live block start end }
{
    let first = start / PAGE_SLOTS;
    let stop = (end - 1) / PAGE_SLOTS + 1;
    let mut left = live & bits_within(first, stop, block);
    while left != 0 {
        let bit = words::lowest(left, 0);
        let page = 64 * block + bit;
        let words = page_words(pages, page);
        let filled = words.filled & bits_within(start, end, page);
        if filled != 0 {
            return Some(PAGE_SLOTS * page + words::lowest(filled, 0));
        }
        left = words::clear(left, bit);
    }
    None
}

// The first reachable cell from `start` up to `end`, block by block, from that of `start`, which was entered.
#[tactic(auto, using(crate::proofs::CellLaws::walking))]
fn walk_blocks(
    w: AdaptiveReceiverPacketWindow,
    pages: &[u64],
    blocks: &[u64],
    start: usize,
    end: usize,
    own: Entered,
) -> NextCell
    requires window_size_bound { (w.window_size ≤ 65536) × (start < end) × (end ≡ capacity w.window_size) }
    requires window_size_in_bounds { (words_per_page * page_count_of w.window_size ≤ length pages.now)
        × (words_per_block * block_count_of w.window_size ≤ length blocks.now) }
    requires own_value { own ≡ entered_at blocks.now w.retired_blocks (start / 4096) 0 }
    ensures { FindsCell w pages.now blocks.now start end result }
{
    let retired_blocks = w.retired_blocks;
    let last = (end - 1) / PAGE_SLOTS / 64;
    let mut block = start / PAGE_SLOTS / 64;
    let mut entered = own;
    // No `for` over the blocks: the first is entered already, and the next one, which is a read, only where this one has no cell.
    let cell = 'walk: loop {
        let cell = cell_in_block(pages, entered.live, block, start, end);
        if cell.is_some() || last <= block {
            break 'walk cell;
        }
        block = block + 1;
        entered = enter_block(blocks, retired_blocks, block, entered.reads);
    };
    NextCell {
        cell,
        reads: entered.reads,
    }
}

// The first reachable cell from `start` up to `end`, which is the capacity. Most often it is in the page
// of `start`, which is looked at first.
// No `WindowRef`: this is public and asks less than one, nothing of the lists of sequences and values and less of the header.
#[tactic(auto, using(crate::proofs::CellLaws::walking))]
pub fn next_cell(
    w: AdaptiveReceiverPacketWindow,
    pages: &[u64],
    blocks: &[u64],
    start: usize,
    end: usize,
) -> NextCell
    requires window_size_bound { (w.window_size ≤ 65536) × (start < end) × (end ≡ capacity w.window_size) }
    requires window_size_in_bounds { (words_per_page * page_count_of w.window_size ≤ length pages.now)
        × (words_per_block * block_count_of w.window_size ≤ length blocks.now) }
    ensures { FindsCell w pages.now blocks.now start end result }
{
    let page = start / PAGE_SLOTS;
    let own = enter_block(blocks, w.retired_blocks, page / 64, 0);
    if let Some(c) = cell_in_page(pages, own.live, page, start % PAGE_SLOTS) {
        return NextCell {
            cell: Some(PAGE_SLOTS * page + c),
            reads: own.reads,
        };
    }
    walk_blocks(w, pages, blocks, start, end, own)
}
