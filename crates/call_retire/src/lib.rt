// The calls that retire and release: remove_range, clear, clear_bounded and release_retired. Each takes the header, the lent lists, the
// return list and numbers, and gives the header back with its outcome.
#![tactic(auto)]

pub mod clear;
pub mod clear_bounded;
pub mod release_retired;
pub mod remove_range;

ghost use Rattle.std.specs.Prelude.{◌≡◌, ◌≤◌};
ghost use Rattle.call_retire.specs.Finish.{finished, cleared_step};

use acknowledge::after_clear;
use window::AdaptiveReceiverPacketWindow;
use window::answers::{Answer, Outcome, Step};
use window::refusals::Refusal;

// The outcome of a call that put `count` values into its list: the answer or refusal, or refusal 7 where it met an unsound state.
#[tactic(auto, unfolding(crate::specs::Finish::finished))]
pub fn finish(
    w: AdaptiveReceiverPacketWindow,
    answer: Result<Answer, Refusal>,
    count: usize,
    sound: bool,
) -> Step
    requires { count ≤ 384 }
    ensures { result ≡ finished w answer count sound }
{
    let answer = if sound { answer } else { Err(Refusal::Unsound) };
    Step {
        window: w,
        answer: Outcome {
            answer,
            count: count as u32,
        },
    }
}

// The step with the point after every value was removed.
pub fn cleared(step: Step) -> Step
    ensures { result ≡ cleared_step step }
{
    Step {
        window: after_clear(step.window),
        answer: step.answer,
    }
}
