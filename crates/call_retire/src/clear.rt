// clear: every value retired, and a release visit with its whole budget.
ghost use Rattle.std.specs.Prelude.{◌≤◌, length};
ghost use Rattle.window.specs.Lent.{ListsFit, lent, lent_mut};
ghost use Rattle.model.specs.Calls.{clear as clear_of};
ghost use Rattle.model.specs.Steps.{clear_step};
ghost use Rattle.call_base.specs.Answers.{MeetsInto};
ghost use Rattle.call_base.specs.Promises.{FillsBy};

use crate::{cleared, finish};
use block_retire::retire_all;
use call_base::admits::{Arguments, admits};
use call_base::refuse;
use window::AdaptiveReceiverPacketWindow;
use window::answers::{Answer, Step};

// Every value retired, and a release visit.
fn clear_all(
    w: AdaptiveReceiverPacketWindow,
    sequences: &[u32],
    values: &[u32],
    pages: &mut [u64],
    blocks: &mut [u64],
    returned: &mut [u32],
) -> Step
    requires { ListsFit w sequences.now values.now pages.old blocks.old × (384 ≤ length returned.old) }
    ensures { FillsBy clear_step w (lent sequences) (lent values) (lent_mut pages) (lent_mut blocks) (lent_mut returned) result }
{
    let retired = retire_all(w, blocks);
    let visited = release_visit::release_retired(
        retired,
        sequences,
        values,
        pages,
        blocks,
        returned,
        0,
        AdaptiveReceiverPacketWindow::MAX_RETIRED_RELEASED_PER_VISIT,
    );
    let window = visited.window;
    finish(window, Ok(Answer::Done), visited.count, visited.sound)
}

pub fn clear(
    w: AdaptiveReceiverPacketWindow,
    sequences: &[u32],
    values: &[u32],
    pages: &mut [u64],
    blocks: &mut [u64],
    returned: &mut [u32],
) -> Step
    ensures { MeetsInto clear_of w (lent sequences) (lent values) (lent_mut pages) (lent_mut blocks) (lent_mut returned) result }
{
    match admits(
        w,
        sequences.len(),
        values.len(),
        pages.len(),
        blocks.len(),
        returned.len(),
        Arguments::Nothing,
    ) {
        Ok(()) => {
            let step = clear_all(w, sequences, values, pages, blocks, returned);
            cleared(step)
        }
        Err(why) => refuse(w, why),
    }
}
