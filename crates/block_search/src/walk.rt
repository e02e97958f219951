// The walk over live pages: the sequence of the first live value, or none.
ghost use Rattle.std.specs.Prelude.{◌*◌, ◌<◌, ◌≤◌, length};
ghost use Rattle.window.specs.Memory.{capacity, page_count_of, block_count_of, words_per_page, words_per_block};
ghost use Rattle.block_search.specs.Promises.{FindsLive};

use crate::{Select, bits_within, next_page};
use page_base::find::slot_at;
use page_base::{NONE, page_cells, page_words};
use window::AdaptiveReceiverPacketWindow;
use window::memory::PAGE_SLOTS;
use window::refusals::Refusal;

// The sequence of the first live value at the positions from `start` up to `end`, if there is one. Unsound: a page that the masks name
// holds no value, or a position that it names has no cell.
pub fn find_live(
    w: AdaptiveReceiverPacketWindow,
    sequences: &[u32],
    pages: &[u64],
    blocks: &[u64],
    start: usize,
    end: usize,
) -> Result<Option<u32>, Refusal>
    requires window_size_bound { (w.window_size ≤ 65536) × (w.n < 64) × (start < end) × (end ≤ capacity w.window_size) }
    requires window_size_in_bounds { (capacity w.window_size ≤ length sequences.now) × (words_per_page * page_count_of w.window_size ≤ length pages.now) × (words_per_block * block_count_of w.window_size ≤ length blocks.now) }
    ensures { FindsLive w sequences.now pages.now blocks.now start end result }
{
    let n = w.n as usize;
    let nonempty_summary = w.nonempty_summary;
    let retired_blocks = w.retired_blocks;
    let stop = (end - 1) / PAGE_SLOTS + 1;
    let mut from = start / PAGE_SLOTS;
    let found = loop {
        let Some(page) = next_page(
            blocks,
            nonempty_summary,
            retired_blocks,
            from,
            stop,
            Select::Live,
        ) else {
            break Ok(None);
        };
        let words = page_words(pages, page);
        if words.kind == NONE {
            break Err(Refusal::Unsound);
        }
        let occupied = words.occupied & bits_within(start, end, page);
        if occupied != 0 {
            let cells = page_cells(sequences, page);
            let Some(c) = slot_at(cells, words, n, words::lowest(occupied, 0)) else {
                break Err(Refusal::Unsound);
            };
            break Ok(Some(cells[c]));
        }
        from = page + 1;
    };
    found
}
