// clear_bounded's release: all pages in their order, inspections free.
ghost use Rattle.std.specs.Prelude.{◌+◌, ◌*◌, ◌≤◌, ◌<◌, length};
ghost use Rattle.window.specs.Memory.{capacity, page_count_of, block_count_of, words_per_page, words_per_block};
ghost use Rattle.release_visit.specs.Promises.{ReleasesPages};

use block_search::{Select, next_page};
use page_release::{PageReleased, release_page};
use window::AdaptiveReceiverPacketWindow;
use window::memory::page_count;

// Of a window with no live value: the values of the pages from page 0 upwards, at most `limit`, into `returned` from `at` on; the
// cursor is kept. Unsound: values are held, but no page holds one, or a position that a page names has no cell.
pub fn release_pages(
    w: AdaptiveReceiverPacketWindow,
    sequences: &[u32],
    values: &[u32],
    pages: &mut [u64],
    blocks: &mut [u64],
    returned: &mut [u32],
    at: usize,
    limit: usize,
) -> PageReleased
    requires window_size_bound { (w.window_size ≤ 65536) × (w.n < 64) × (limit ≤ 256) × (at + limit ≤ length returned.old) }
    requires window_size_in_bounds { (capacity w.window_size ≤ length sequences.now) × (capacity w.window_size ≤ length values.now) × (words_per_page * page_count_of w.window_size ≤ length pages.old) × (words_per_block * block_count_of w.window_size ≤ length blocks.old) }
    ensures { ReleasesPages w sequences.now values.now pages.old blocks.old returned.old at limit result pages.new blocks.new returned.new }
{
    let n = w.n as usize;
    let end = page_count(w.window_size);
    let mut window = w;
    let mut count: usize = 0;
    let mut from: usize = 0;
    while count < limit {
        if window.len == 0 && window.retired_held == 0 {
            break;
        }
        let Some(page) = next_page(
            blocks,
            window.nonempty_summary,
            window.retired_blocks,
            from,
            end,
            Select::Nonempty,
        ) else {
            return PageReleased {
                window,
                count,
                sound: false,
            };
        };
        let released = release_page(
            window,
            sequences,
            values,
            pages,
            blocks,
            returned,
            page,
            n,
            at + count,
            limit - count,
        );
        window = released.window;
        count += released.count;
        from = page + 1;
        if !released.sound {
            return PageReleased {
                window,
                count,
                sound: false,
            };
        }
    }
    PageReleased {
        window,
        count,
        sound: true,
    }
}
