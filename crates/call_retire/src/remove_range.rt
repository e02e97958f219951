// remove_range: the live values at the positions from first's to last's retired, and a release visit with its whole budget.
ghost use Rattle.std.specs.Prelude.{◌<◌, ◌≤◌, length};
ghost use Rattle.window.specs.Memory.{capacity};
ghost use Rattle.window.specs.Lent.{found_in, left_in, ListsFit, lent_mut};
ghost use Rattle.model.specs.Calls.{remove_range};
ghost use Rattle.model.specs.Steps.{range_step};
ghost use Rattle.block_marks.specs.Promises.{ChangesHeader};
ghost use Rattle.call_base.specs.Answers.{MeetsInto};
ghost use Rattle.call_base.specs.Promises.{FillsBy};
ghost use Rattle.range_retire.specs.Promises.{Performs};
ghost use Rattle.call_retire.specs.Finish.{KeepsRange};
ghost use Rattle.call_retire.specs.Range.{readied, retire_ready};

use crate::finish;
use acknowledge::after_range;
use block_marks::marks::settle_retired;
use call_base::admits::{Arguments, admits};
use call_base::{range_count, refuse};
use range_retire::Retired;
use range_retire::range::retire_range;
use window::AdaptiveReceiverPacketWindow;
use window::answers::{Answer, Step};
use window::memory::{PAGE_SLOTS, position};

// The header made ready for a release: with nothing retired before, `held`, the cursor goes to the page of `start`; with nothing
// retired now, the block marks drop.
#[tactic(auto, unfolding(crate::specs::Range::readied))]
fn ready(w: AdaptiveReceiverPacketWindow, held: u32, start: usize) -> AdaptiveReceiverPacketWindow
    requires { start < 65536 }
    ensures { ChangesHeader (readied held start) w result }
{
    if held != 0 {
        return settle_retired(w);
    }
    let mut window = w;
    window.release_cursor = (start / PAGE_SLOTS) as u32;
    settle_retired(window)
}

// The live values at `count` positions in a row from `start`, retired, and the header made ready for a release.
fn retire(
    w: AdaptiveReceiverPacketWindow,
    sequences: &mut [u32],
    values: &mut [u32],
    pages: &mut [u64],
    blocks: &mut [u64],
    returned: &mut [u32],
    start: usize,
    count: usize,
) -> Retired
    requires lists_fit { ListsFit w sequences.old values.old pages.old blocks.old }
    requires start_bound { (start < capacity w.window_size) × (0 < count) × (count ≤ capacity w.window_size) × (128 ≤ length returned.old) }
    ensures { Performs (λ v. retire_ready v start count) 128 w (found_in (lent_mut sequences) (lent_mut values) (lent_mut pages) (lent_mut blocks)) 0 returned.old result (left_in (lent_mut sequences) (lent_mut values) (lent_mut pages) (lent_mut blocks)) returned.new }
{
    let retired = retire_range(w, sequences, values, pages, blocks, returned, start, count);
    let window = ready(retired.window, w.retired_held, start);
    Retired {
        window,
        count: retired.count,
        sound: retired.sound,
    }
}

// The live values at `count` positions in a row from `start`: retired, and a release visit with its whole budget, which finds nothing
// where none is held retired. The answer is how many they were.
fn remove_positions(
    w: AdaptiveReceiverPacketWindow,
    sequences: &mut [u32],
    values: &mut [u32],
    pages: &mut [u64],
    blocks: &mut [u64],
    returned: &mut [u32],
    start: usize,
    count: usize,
) -> Step
    requires lists_fit { ListsFit w sequences.old values.old pages.old blocks.old }
    requires start_bound { (start < capacity w.window_size) × (0 < count) × (count ≤ capacity w.window_size) × (384 ≤ length returned.old) }
    ensures { FillsBy (λ v. range_step v start count) w (lent_mut sequences) (lent_mut values) (lent_mut pages) (lent_mut blocks) (lent_mut returned) result }
{
    let retired = retire(w, sequences, values, pages, blocks, returned, start, count);
    let left = retired.window;
    let at = retired.count;
    let removed = w.len.wrapping_sub(left.len);
    if left.retired_held == 0 {
        return finish(left, Ok(Answer::Found(removed)), at, retired.sound);
    }
    let visited = release_visit::release_retired(
        left,
        sequences,
        values,
        pages,
        blocks,
        returned,
        at,
        AdaptiveReceiverPacketWindow::MAX_RETIRED_RELEASED_PER_VISIT,
    );
    let window = visited.window;
    let sound = retired.sound & visited.sound;
    finish(
        window,
        Ok(Answer::Found(removed)),
        at + visited.count,
        sound,
    )
}

// The point after `count` positions from first's were emptied in a window of this size.
fn keep_point(step: Step, size: u32, first: u32, count: usize) -> Step
    requires { (size ≤ 65536) × (count ≤ capacity size) }
    ensures { KeepsRange size first count step result }
{
    Step {
        window: after_range(step.window, size, first, count),
        answer: step.answer,
    }
}

pub fn remove_range(
    w: AdaptiveReceiverPacketWindow,
    sequences: &mut [u32],
    values: &mut [u32],
    pages: &mut [u64],
    blocks: &mut [u64],
    returned: &mut [u32],
    first: u32,
    last: u32,
) -> Step
    ensures { MeetsInto (remove_range first last) w (lent_mut sequences) (lent_mut values) (lent_mut pages) (lent_mut blocks) (lent_mut returned) result }
{
    match admits(
        w,
        sequences.len(),
        values.len(),
        pages.len(),
        blocks.len(),
        returned.len(),
        Arguments::Range(first, last),
    ) {
        Ok(()) => {
            let start = position(w.window_size, first);
            let count = range_count(first, last) as usize;
            let step = remove_positions(
                w, sequences, values, pages, blocks, returned, start, count,
            );
            keep_point(step, w.window_size, first, count)
        }
        Err(why) => refuse(w, why),
    }
}
