// A stretch of positions retired: the partial pages at either end value by value, whole pages and blocks by mark.
ghost use Rattle.std.specs.Prelude.{◌≡◌, ◌+◌, ◌-◌, ◌*◌, ◌/◌, ◌≤◌, ◌<◌, length};
ghost use Rattle.window.specs.Memory.{capacity};
ghost use Rattle.window.specs.Lent.{found_in, left_in, lent_mut};
ghost use Rattle.window.specs.Refusals.{Fits};
ghost use Rattle.model.specs.Steps.{retire_stretch};
ghost use Rattle.laws_soundness.specs.Retire.{first_page, last_page};
ghost use Rattle.range_retire.specs.Spans.{partial, span_most, end_pages};
ghost use Rattle.range_retire.specs.Promises.{Performs};

use crate::Retired;
use crate::slots::remove_slots;
use block_retire::run::retire_pages;
use window::AdaptiveReceiverPacketWindow;
use window::memory::PAGE_SLOTS;

// The last position of a page.
const LAST_SLOT: usize = PAGE_SLOTS - 1;

// The first partial page of a stretch that begins at `start`. (No one function with retire_tail: each has a condition, a mask and a
// definition of its own.)
fn retire_head(
    w: AdaptiveReceiverPacketWindow,
    sequences: &mut [u32],
    values: &mut [u32],
    pages: &mut [u64],
    blocks: &mut [u64],
    returned: &mut [u32],
    at: usize,
    start: usize,
) -> Retired
    requires fits { Fits w (length sequences.old) (length values.old) (length pages.old) (length blocks.old) }
    requires start_bound { (start < capacity w.window_size) × (at + partial start ≤ length returned.old) }
    ensures { Performs (λ v. first_page v start) (partial start) w (found_in (lent_mut sequences) (lent_mut values) (lent_mut pages) (lent_mut blocks)) at returned.old result (left_in (lent_mut sequences) (lent_mut values) (lent_mut pages) (lent_mut blocks)) returned.new }
{
    if start % PAGE_SLOTS == 0 {
        return Retired {
            window: w,
            count: 0,
            sound: true,
        };
    }
    let slots = words::span(start % PAGE_SLOTS, PAGE_SLOTS);
    remove_slots(
        w,
        sequences,
        values,
        pages,
        blocks,
        returned,
        at,
        start / PAGE_SLOTS,
        slots,
    )
}

// The last partial page of a stretch that ends before `end`.
fn retire_tail(
    w: AdaptiveReceiverPacketWindow,
    sequences: &mut [u32],
    values: &mut [u32],
    pages: &mut [u64],
    blocks: &mut [u64],
    returned: &mut [u32],
    at: usize,
    end: usize,
) -> Retired
    requires fits { Fits w (length sequences.old) (length values.old) (length pages.old) (length blocks.old) }
    requires end_bound { (end ≤ capacity w.window_size) × (at + partial end ≤ length returned.old) }
    ensures { Performs (λ v. last_page v end) (partial end) w (found_in (lent_mut sequences) (lent_mut values) (lent_mut pages) (lent_mut blocks)) at returned.old result (left_in (lent_mut sequences) (lent_mut values) (lent_mut pages) (lent_mut blocks)) returned.new }
{
    if end % PAGE_SLOTS == 0 {
        return Retired {
            window: w,
            count: 0,
            sound: true,
        };
    }
    let slots = words::span(0, end % PAGE_SLOTS);
    remove_slots(
        w,
        sequences,
        values,
        pages,
        blocks,
        returned,
        at,
        end / PAGE_SLOTS,
        slots,
    )
}

// Both.
fn retire_ends(
    w: AdaptiveReceiverPacketWindow,
    sequences: &mut [u32],
    values: &mut [u32],
    pages: &mut [u64],
    blocks: &mut [u64],
    returned: &mut [u32],
    at: usize,
    start: usize,
    end: usize,
) -> Retired
    requires fits { Fits w (length sequences.old) (length values.old) (length pages.old) (length blocks.old) }
    requires start_bound { (start < capacity w.window_size) × (end ≤ capacity w.window_size) × (at + (partial start + partial end) ≤ length returned.old) }
    ensures { Performs (λ v. end_pages v start end) (partial start + partial end) w (found_in (lent_mut sequences) (lent_mut values) (lent_mut pages) (lent_mut blocks)) at returned.old result (left_in (lent_mut sequences) (lent_mut values) (lent_mut pages) (lent_mut blocks)) returned.new }
{
    let head = retire_head(w, sequences, values, pages, blocks, returned, at, start);
    let begun = head.window;
    let next = at + head.count;
    let tail = retire_tail(begun, sequences, values, pages, blocks, returned, next, end);
    let window = tail.window;
    Retired {
        window,
        count: head.count + tail.count,
        sound: head.sound & tail.sound,
    }
}

// A stretch inside one page.
pub fn retire_inside(
    w: AdaptiveReceiverPacketWindow,
    sequences: &mut [u32],
    values: &mut [u32],
    pages: &mut [u64],
    blocks: &mut [u64],
    returned: &mut [u32],
    at: usize,
    start: usize,
    end: usize,
) -> Retired
    requires fits { Fits w (length sequences.old) (length values.old) (length pages.old) (length blocks.old) }
    requires start_lt_end { (start < end) × (start / 64 ≡ (end - 1) / 64) × (end ≤ capacity w.window_size) × (at + span_most start end ≤ length returned.old) }
    ensures { Performs (λ v. retire_stretch v start end) (span_most start end) w (found_in (lent_mut sequences) (lent_mut values) (lent_mut pages) (lent_mut blocks)) at returned.old result (left_in (lent_mut sequences) (lent_mut values) (lent_mut pages) (lent_mut blocks)) returned.new }
{
    let slots = words::span(start % PAGE_SLOTS, (end - 1) % PAGE_SLOTS + 1);
    remove_slots(
        w,
        sequences,
        values,
        pages,
        blocks,
        returned,
        at,
        start / PAGE_SLOTS,
        slots,
    )
}

// A stretch that reaches over several pages.
pub fn retire_across(
    w: AdaptiveReceiverPacketWindow,
    sequences: &mut [u32],
    values: &mut [u32],
    pages: &mut [u64],
    blocks: &mut [u64],
    returned: &mut [u32],
    at: usize,
    start: usize,
    end: usize,
) -> Retired
    requires fits { Fits w (length sequences.old) (length values.old) (length pages.old) (length blocks.old) }
    requires start_bound { (64 * (start / 64) + 64 < end) × (end ≤ capacity w.window_size) × (at + (partial start + partial end) ≤ length returned.old) }
    ensures { Performs (λ v. retire_stretch v start end) (partial start + partial end) w (found_in (lent_mut sequences) (lent_mut values) (lent_mut pages) (lent_mut blocks)) at returned.old result (left_in (lent_mut sequences) (lent_mut values) (lent_mut pages) (lent_mut blocks)) returned.new }
{
    let ends = retire_ends(
        w, sequences, values, pages, blocks, returned, at, start, end,
    );
    let left = ends.window;
    let window = retire_pages(
        left,
        pages,
        blocks,
        (start + LAST_SLOT) / PAGE_SLOTS,
        end / PAGE_SLOTS,
    );
    Retired {
        window,
        count: ends.count,
        sound: ends.sound,
    }
}

// The live values at the positions from `start` up to `end`.
pub fn retire_span(
    w: AdaptiveReceiverPacketWindow,
    sequences: &mut [u32],
    values: &mut [u32],
    pages: &mut [u64],
    blocks: &mut [u64],
    returned: &mut [u32],
    at: usize,
    start: usize,
    end: usize,
) -> Retired
    requires fits { Fits w (length sequences.old) (length values.old) (length pages.old) (length blocks.old) }
    requires start_lt_end { (start < end) × (end ≤ capacity w.window_size) × (at + span_most start end ≤ length returned.old) }
    ensures { Performs (λ v. retire_stretch v start end) (span_most start end) w (found_in (lent_mut sequences) (lent_mut values) (lent_mut pages) (lent_mut blocks)) at returned.old result (left_in (lent_mut sequences) (lent_mut values) (lent_mut pages) (lent_mut blocks)) returned.new }
{
    if start / PAGE_SLOTS == (end - 1) / PAGE_SLOTS {
        return retire_inside(
            w, sequences, values, pages, blocks, returned, at, start, end,
        );
    }
    retire_across(
        w, sequences, values, pages, blocks, returned, at, start, end,
    )
}
