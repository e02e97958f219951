// take_front: the value of the base, removed, and the base moved by one. If the base is absent, nothing moves.
ghost use Rattle.window.specs.Lent.{lent_mut};
ghost use Rattle.acknowledge.specs.Promises.{ListsLent};
ghost use Rattle.model.specs.Calls.{take_front};
ghost use Rattle.call_base.specs.Answers.{MeetsBy};
ghost use Rattle.call_point.specs.Promises.{MovesFront};

use crate::is_found;
use crate::remove::remove_value;
use acknowledge::after_base;
use call_base::admits::{Arguments, NO_LIST, admits};
use call_base::{refuse, sequence_at};
use window::AdaptiveReceiverPacketWindow;
use window::answers::Step;

// The base and the point after the remove of the base of `w`: where it was found, the base moves by one.
fn move_base(
    w: AdaptiveReceiverPacketWindow,
    step: Step,
    sequences: &[u32],
    pages: &[u64],
    blocks: &[u64],
) -> Step
    requires { ListsLent w sequences.now pages.now blocks.now }
    ensures { MovesFront w sequences.now pages.now blocks.now step result }
{
    let outcome = step.answer;
    let given = outcome.answer;
    if is_found(given) {
        let next = sequence_at(w.base, 1);
        return Step {
            window: after_base(w, step.window, sequences, pages, blocks, next),
            answer: outcome,
        };
    }
    step
}

pub fn take_front(
    w: AdaptiveReceiverPacketWindow,
    sequences: &mut [u32],
    values: &mut [u32],
    pages: &mut [u64],
    blocks: &mut [u64],
) -> Step
    ensures { MeetsBy take_front w (lent_mut sequences) (lent_mut values) (lent_mut pages) (lent_mut blocks) result }
{
    match admits(
        w,
        sequences.len(),
        values.len(),
        pages.len(),
        blocks.len(),
        NO_LIST,
        Arguments::Nothing,
    ) {
        Ok(()) => {
            let step = remove_value(w, sequences, values, pages, blocks, w.base);
            move_base(w, step, sequences, pages, blocks)
        }
        Err(why) => refuse(w, why),
    }
}
