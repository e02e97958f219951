// Releases over several pages: a release visit from the cursor here, clear_bounded's of all pages in their order in bounded.rt.
#![tactic(auto)]

pub mod bounded;

ghost use Rattle.std.specs.Prelude.{◌≡◌, ◌+◌, ◌*◌, ◌≤◌, ◌<◌, length};
ghost use Rattle.window.specs.Memory.{capacity, page_count_of, block_count_of, words_per_page, words_per_block, RowIn};
ghost use Rattle.page_base.specs.Page.{words_at};
ghost use Rattle.release_visit.specs.Promises.{next_cursor_of, FindsRetired, VisitsPage, Releases};

use block_marks::marks::settle_retired;
use block_search::{Select, next_page};
use page_base::page_words;
use page_release::{PageReleased, release_page};
use window::AdaptiveReceiverPacketWindow;
use window::memory::page_count;

// The header after a release visit, how many values were handed back, the units used, and whether the retired values held were found
// in retired pages, each in a cell. The header and the numbers are given either way, since what was handed back stays handed back on an
// unsound state too: so `sound` is a field and no Err.
#[derive(Clone, Copy)]
pub struct Visited {
    pub window: AdaptiveReceiverPacketWindow,
    pub count: usize,
    pub units: usize,
    pub sound: bool,
}

// The first retired page that holds a value, of the `end` pages: from the cursor upwards and then round.
fn next_retired(w: AdaptiveReceiverPacketWindow, blocks: &[u64], end: usize) -> Option<usize>
    requires { (end ≡ page_count_of w.window_size) × (words_per_block * block_count_of w.window_size ≤ length blocks.now) }
    ensures { FindsRetired w blocks.now result }
{
    let cursor = w.release_cursor as usize;
    if end <= cursor {
        return None;
    }
    if let Some(page) = next_page(
        blocks,
        w.nonempty_summary,
        w.retired_blocks,
        cursor,
        end,
        Select::Retired,
    ) {
        return Some(page);
    }
    next_page(
        blocks,
        w.nonempty_summary,
        w.retired_blocks,
        0,
        cursor,
        Select::Retired,
    )
}

// The cursor after page `page` was inspected: an emptied page moves it to the next page, another keeps it there.
#[tactic(auto, unfolding(crate::specs::Promises::next_cursor_of))]
fn next_cursor(pages: &[u64], page: usize, end: usize) -> u32
    requires { (page < end) × (end ≤ 1024) × RowIn words_per_page page pages.now }
    ensures { result ≡ next_cursor_of (words_at pages.now page) page end }
{
    let words = page_words(pages, page);
    if words.occupied == 0 {
        return ((page + 1) % end) as u32;
    }
    page as u32
}

// Page `page` inspected: its lowest values, at most `limit`, into `returned` from `at` on, and the cursor moved.
fn visit_page(
    w: AdaptiveReceiverPacketWindow,
    sequences: &[u32],
    values: &[u32],
    pages: &mut [u64],
    blocks: &mut [u64],
    returned: &mut [u32],
    page: usize,
    end: usize,
    at: usize,
    limit: usize,
) -> PageReleased
    requires end_value { (end ≡ page_count_of w.window_size) × (page < end) × (w.n < 64) × (limit ≤ 256) × (at + limit ≤ length returned.old) }
    requires window_size_in_bounds { (capacity w.window_size ≤ length sequences.now) × (capacity w.window_size ≤ length values.now) × (words_per_page * page_count_of w.window_size ≤ length pages.old) × (words_per_block * block_count_of w.window_size ≤ length blocks.old) }
    ensures { VisitsPage w sequences.now values.now pages.old blocks.old returned.old page at limit result pages.new blocks.new returned.new }
{
    let n = w.n as usize;
    let released = release_page(
        w, sequences, values, pages, blocks, returned, page, n, at, limit,
    );
    let mut window = released.window;
    window.release_cursor = next_cursor(pages, page, end);
    PageReleased {
        window,
        count: released.count,
        sound: released.sound,
    }
}

// The values of retired pages, from the cursor upwards and then round, into `returned` from `at` on: each page inspected
// and each value costs a unit, of which there are `budget`.
pub fn release_retired(
    w: AdaptiveReceiverPacketWindow,
    sequences: &[u32],
    values: &[u32],
    pages: &mut [u64],
    blocks: &mut [u64],
    returned: &mut [u32],
    at: usize,
    budget: usize,
) -> Visited
    requires window_size_bound { (w.window_size ≤ 65536) × (w.n < 64) × (budget ≤ 256) × (at + budget ≤ length returned.old) }
    requires window_size_in_bounds { (capacity w.window_size ≤ length sequences.now) × (capacity w.window_size ≤ length values.now) × (words_per_page * page_count_of w.window_size ≤ length pages.old) × (words_per_block * block_count_of w.window_size ≤ length blocks.old) }
    ensures { Releases w sequences.now values.now pages.old blocks.old returned.old at budget result pages.new blocks.new returned.new }
{
    let end = page_count(w.window_size);
    let mut window = w;
    let mut count: usize = 0;
    let mut units: usize = 0;
    while units < budget {
        if window.retired_held == 0 {
            break;
        }
        let Some(page) = next_retired(window, blocks, end) else {
            return Visited {
                window,
                count,
                units,
                sound: false,
            };
        };
        units += 1;
        let visited = visit_page(
            window,
            sequences,
            values,
            pages,
            blocks,
            returned,
            page,
            end,
            at + count,
            budget - units,
        );
        window = visited.window;
        count += visited.count;
        units += visited.count;
        if !visited.sound {
            return Visited {
                window,
                count,
                units,
                sound: false,
            };
        }
    }
    Visited {
        window: settle_retired(window),
        count,
        units,
        sound: true,
    }
}
