// The values at some positions of one page.
ghost use Rattle.std.specs.Prelude.{◌+◌, ◌*◌, ◌≤◌, ◌<◌, length};
ghost use Rattle.words.specs.Word.{is_set};
ghost use Rattle.window.specs.Memory.{page_count_of, words_per_page, RowIn};
ghost use Rattle.window.specs.Lent.{found_in, left_in, lent_mut};
ghost use Rattle.window.specs.Refusals.{Fits};
ghost use Rattle.model.specs.Steps.{remove_slots_of};
ghost use Rattle.page_base.specs.Page.{words_at, part_of};
ghost use Rattle.page_remove.specs.Promises.{Drains};
ghost use Rattle.range_retire.specs.Slots.{take_slots_of};
ghost use Rattle.range_retire.specs.Promises.{SettlesPage, Performs};

use crate::Retired;
use block_marks::marks::page_retired;
use page_base::{PageWords, page_cells, page_words};
use page_remove::drain::{Drained, drain};
use page_remove::{Settled, settle};
use page_store::store::store_removed;
use window::{AdaptiveReceiverPacketWindow, Cause};

// The values at the positions named by `slots` of page `page`, into `returned` from `at` on.
fn drain_slots(
    sequences: &[u32],
    values: &[u32],
    pages: &[u64],
    returned: &mut [u32],
    page: usize,
    n: usize,
    slots: u64,
    at: usize,
) -> Drained
    requires page_bound { (page < 1024) × (64 * page + 64 ≤ length sequences.now) × (64 * page + 64 ≤ length values.now) × (RowIn words_per_page page pages.now) }
    requires n_bound { (n < 64) × (at + 64 ≤ length returned.old) }
    ensures { Drains n (words_at pages.now page) (part_of page sequences.now) (part_of page values.now) slots at 64 returned.old result returned.new }
{
    let words = page_words(pages, page);
    drain(
        page_cells(sequences, page),
        page_cells(values, page),
        returned,
        words,
        n,
        slots,
        at,
        64,
    )
}

// Page `page`, left with these words after its last value was taken out: emptied, demoted, or as it is. Its cells are cut out here
// (page_base says why).
fn settle_page(
    sequences: &mut [u32],
    values: &mut [u32],
    page: usize,
    words: PageWords,
    demote_at: usize,
) -> Settled
    requires { (page < 1024) × (64 * page + 64 ≤ length sequences.old) × (64 * page + 64 ≤ length values.old) }
    ensures { SettlesPage demote_at page words sequences.old values.old result sequences.new values.new }
{
    let from = 64 * page;
    let to = from + 64;
    settle(
        &mut sequences[from..to],
        &mut values[from..to],
        words,
        demote_at,
    )
}

// The values at the positions named by `slots` of page `page`, which is live and holds a value. Demotion is tested once.
fn take_slots(
    w: AdaptiveReceiverPacketWindow,
    sequences: &mut [u32],
    values: &mut [u32],
    pages: &mut [u64],
    blocks: &mut [u64],
    returned: &mut [u32],
    at: usize,
    page: usize,
    slots: u64,
) -> Retired
    requires fits { Fits w (length sequences.old) (length values.old) (length pages.old) (length blocks.old) }
    requires page_bound { (page < page_count_of w.window_size) × (at + 64 ≤ length returned.old) }
    ensures { Performs (λ v. take_slots_of v page (is_set slots)) 64 w (found_in (lent_mut sequences) (lent_mut values) (lent_mut pages) (lent_mut blocks)) at returned.old result (left_in (lent_mut sequences) (lent_mut values) (lent_mut pages) (lent_mut blocks)) returned.new }
{
    let d = drain_slots(
        sequences,
        values,
        pages,
        returned,
        page,
        w.n as usize,
        slots,
        at,
    );
    let count = d.count;
    let s = settle_page(sequences, values, page, d.words, w.demote_at as usize);
    let words = s.words;
    let left = s.left;
    let window = store_removed(
        w,
        pages,
        blocks,
        page,
        words,
        left,
        Cause::Range,
        count as u32,
    );
    Retired {
        window,
        count,
        sound: d.sound,
    }
}

// The live values at the positions named by `slots` of page `page`; a page that is retired is skipped.
#[tactic(auto, using(crate::proofs::TakeLaws::skipping))]
pub fn remove_slots(
    w: AdaptiveReceiverPacketWindow,
    sequences: &mut [u32],
    values: &mut [u32],
    pages: &mut [u64],
    blocks: &mut [u64],
    returned: &mut [u32],
    at: usize,
    page: usize,
    slots: u64,
) -> Retired
    requires fits { Fits w (length sequences.old) (length values.old) (length pages.old) (length blocks.old) }
    requires page_bound { (page < page_count_of w.window_size) × (at + 64 ≤ length returned.old) }
    ensures { Performs (λ v. remove_slots_of v page (is_set slots)) 64 w (found_in (lent_mut sequences) (lent_mut values) (lent_mut pages) (lent_mut blocks)) at returned.old result (left_in (lent_mut sequences) (lent_mut values) (lent_mut pages) (lent_mut blocks)) returned.new }
{
    let words = page_words(pages, page);
    if words.occupied == 0 {
        return Retired {
            window: w,
            count: 0,
            sound: true,
        };
    }
    if page_retired(blocks, w.retired_blocks, page) {
        return Retired {
            window: w,
            count: 0,
            sound: true,
        };
    }
    take_slots(
        w, sequences, values, pages, blocks, returned, at, page, slots,
    )
}
