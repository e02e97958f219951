// set_base: the sequence from which the acknowledge point is looked for.
ghost use Rattle.window.specs.Lent.{lent};
ghost use Rattle.model.specs.Calls.{set_base};
ghost use Rattle.call_base.specs.Answers.{MeetsBy};

use acknowledge::after_base;
use call_base::admits::{Arguments, NO_LIST, admits};
use call_base::{refuse, reply};
use window::AdaptiveReceiverPacketWindow;
use window::answers::{Answer, Step};

pub fn set_base(
    w: AdaptiveReceiverPacketWindow,
    sequences: &[u32],
    values: &[u32],
    pages: &[u64],
    blocks: &[u64],
    base: u32,
) -> Step
    ensures { MeetsBy (set_base base) w (lent sequences) (lent values) (lent pages) (lent blocks) result }
{
    match admits(
        w,
        sequences.len(),
        values.len(),
        pages.len(),
        blocks.len(),
        NO_LIST,
        Arguments::Base(base),
    ) {
        Ok(()) => {
            reply(
                after_base(w, w, sequences, pages, blocks, base),
                Ok(Answer::Done),
            )
        }
        Err(why) => refuse(w, why),
    }
}
