// clear_bounded: every value retired, and at most a number of them handed back from page 0 on, the cursor kept.
ghost use Rattle.std.specs.Prelude.{◌≤◌, length};
ghost use Rattle.window.specs.Lent.{ListsFit, lent, lent_mut};
ghost use Rattle.model.specs.Calls.{clear_bounded};
ghost use Rattle.model.specs.Steps.{clear_bounded_step};
ghost use Rattle.call_base.specs.Answers.{MeetsInto};
ghost use Rattle.call_base.specs.Promises.{FillsBy};

use crate::{cleared, finish};
use block_retire::retire_all;
use call_base::admits::{Arguments, admits};
use call_base::refuse;
use release_visit::bounded::release_pages;
use window::AdaptiveReceiverPacketWindow;
use window::answers::{Answer, Step};

// Every value retired, and at most `number` of them handed back.
fn clear_some(
    w: AdaptiveReceiverPacketWindow,
    sequences: &[u32],
    values: &[u32],
    pages: &mut [u64],
    blocks: &mut [u64],
    returned: &mut [u32],
    number: u32,
) -> Step
    requires { ListsFit w sequences.now values.now pages.old blocks.old × (384 ≤ length returned.old) × (number ≤ 256) }
    ensures { FillsBy (λ v. clear_bounded_step v number) w (lent sequences) (lent values) (lent_mut pages) (lent_mut blocks) (lent_mut returned) result }
{
    let retired = retire_all(w, blocks);
    let released = release_pages(
        retired,
        sequences,
        values,
        pages,
        blocks,
        returned,
        0,
        number as usize,
    );
    let window = released.window;
    let answer = Ok(Answer::Found(released.count as u32));
    finish(window, answer, released.count, released.sound)
}

pub fn clear_bounded(
    w: AdaptiveReceiverPacketWindow,
    sequences: &[u32],
    values: &[u32],
    pages: &mut [u64],
    blocks: &mut [u64],
    returned: &mut [u32],
    number: u32,
) -> Step
    ensures { MeetsInto (clear_bounded number) w (lent sequences) (lent values) (lent_mut pages) (lent_mut blocks) (lent_mut returned) result }
{
    match admits(
        w,
        sequences.len(),
        values.len(),
        pages.len(),
        blocks.len(),
        returned.len(),
        Arguments::Number(number),
    ) {
        Ok(()) => {
            let step = clear_some(w, sequences, values, pages, blocks, returned, number);
            cleared(step)
        }
        Err(why) => refuse(w, why),
    }
}
