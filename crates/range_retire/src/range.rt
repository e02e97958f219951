// A range of positions retired, wrapping at the capacity: first the stretch up to the capacity, then that from 0.
ghost use Rattle.std.specs.Prelude.{◌+◌, ◌≤◌, ◌<◌, length};
ghost use Rattle.window.specs.Memory.{capacity as capacity_of};
ghost use Rattle.window.specs.Lent.{found_in, left_in, lent_mut};
ghost use Rattle.window.specs.Refusals.{Fits};
ghost use Rattle.model.specs.Steps.{retire_range_of};
ghost use Rattle.range_retire.specs.Spans.{two_stretches};
ghost use Rattle.range_retire.specs.Promises.{Performs};

use crate::Retired;
use crate::span::{retire_across, retire_inside, retire_span};
use window::AdaptiveReceiverPacketWindow;
use window::memory::{PAGE_SLOTS, capacity};

// The positions from `start` up to the capacity, `end`, and those from 0 up to `rest`.
fn retire_round(
    w: AdaptiveReceiverPacketWindow,
    sequences: &mut [u32],
    values: &mut [u32],
    pages: &mut [u64],
    blocks: &mut [u64],
    returned: &mut [u32],
    start: usize,
    end: usize,
    rest: usize,
) -> Retired
    requires fits { Fits w (length sequences.old) (length values.old) (length pages.old) (length blocks.old) }
    requires start_lt_end { (start < end) × (end ≤ capacity_of w.window_size) × (capacity_of w.window_size ≤ end) × (0 < rest) × (rest ≤ end) × (128 ≤ length returned.old) }
    ensures { Performs (two_stretches start end rest) 128 w (found_in (lent_mut sequences) (lent_mut values) (lent_mut pages) (lent_mut blocks)) 0 returned.old result (left_in (lent_mut sequences) (lent_mut values) (lent_mut pages) (lent_mut blocks)) returned.new }
{
    let first = retire_span(w, sequences, values, pages, blocks, returned, 0, start, end);
    let left = first.window;
    let next = first.count;
    let second = retire_span(
        left, sequences, values, pages, blocks, returned, next, 0, rest,
    );
    let window = second.window;
    Retired {
        window,
        count: first.count + second.count,
        sound: first.sound & second.sound,
    }
}

// The live values at `count` positions in a row from `start`. What is put into the return list stands there from 0 on. A range that
// does not wrap is one stretch; the two cases of retire_span stand here, so that a range inside one page, the most frequent, goes
// through one function less.
pub fn retire_range(
    w: AdaptiveReceiverPacketWindow,
    sequences: &mut [u32],
    values: &mut [u32],
    pages: &mut [u64],
    blocks: &mut [u64],
    returned: &mut [u32],
    start: usize,
    count: usize,
) -> Retired
    requires fits { Fits w (length sequences.old) (length values.old) (length pages.old) (length blocks.old) }
    requires start_bound { (start < capacity_of w.window_size) × (0 < count) × (count ≤ capacity_of w.window_size) × (128 ≤ length returned.old) }
    ensures { Performs (λ v. retire_range_of v start count) 128 w (found_in (lent_mut sequences) (lent_mut values) (lent_mut pages) (lent_mut blocks)) 0 returned.old result (left_in (lent_mut sequences) (lent_mut values) (lent_mut pages) (lent_mut blocks)) returned.new }
{
    let end = capacity(w.window_size);
    let to = start + count;
    if to <= end {
        if start / PAGE_SLOTS == (to - 1) / PAGE_SLOTS {
            return retire_inside(w, sequences, values, pages, blocks, returned, 0, start, to);
        }
        return retire_across(w, sequences, values, pages, blocks, returned, 0, start, to);
    }
    retire_round(
        w,
        sequences,
        values,
        pages,
        blocks,
        returned,
        start,
        end,
        to - end,
    )
}
