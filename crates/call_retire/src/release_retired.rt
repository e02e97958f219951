// release_retired: retired values handed back, at a cost of one unit for each page inspected and each value. With none held it answers
// at once.
ghost use Rattle.window.specs.Lent.{lent, lent_mut};
ghost use Rattle.model.specs.Calls.{release_retired};
ghost use Rattle.call_base.specs.Answers.{MeetsInto};

use crate::finish;
use call_base::admits::{Arguments, admits};
use call_base::{refuse, reply};
use window::AdaptiveReceiverPacketWindow;
use window::answers::{Answer, Step};

pub fn release_retired(
    w: AdaptiveReceiverPacketWindow,
    sequences: &[u32],
    values: &[u32],
    pages: &mut [u64],
    blocks: &mut [u64],
    returned: &mut [u32],
    budget: u32,
) -> Step
    ensures { MeetsInto (release_retired budget) w (lent sequences) (lent values) (lent_mut pages) (lent_mut blocks) (lent_mut returned) result }
{
    match admits(
        w,
        sequences.len(),
        values.len(),
        pages.len(),
        blocks.len(),
        returned.len(),
        Arguments::Number(budget),
    ) {
        Ok(()) => {
            if w.retired_held == 0 && w.retired_blocks == 0 {
                return reply(w, Ok(Answer::Released(0, 0)));
            }
            let limit = budget as usize;
            let visited = release_visit::release_retired(
                w, sequences, values, pages, blocks, returned, 0, limit,
            );
            let window = visited.window;
            let answer = Ok(Answer::Released(visited.count as u32, visited.units as u32));
            finish(window, answer, visited.count, visited.sound)
        }
        Err(why) => refuse(w, why),
    }
}
