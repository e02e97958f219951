// The calls on one sequence that write: exchange, remove and insert; and those that move the base, set_base and take_front. Each takes
// the header, the lent lists and numbers, and gives the header back with its outcome.
#![tactic(auto)]

pub mod exchange;
pub mod insert;
pub mod remove;
pub mod set_base;
pub mod take_front;

ghost use Rattle.std.specs.Prelude.{◌≡◌};
ghost use Rattle.model.specs.Steps.{is_new as is_new_of};
ghost use Rattle.call_base.specs.Answers.{answer_of};
ghost use Rattle.call_point.specs.Promises.{is_found as is_found_of};

use window::answers::Answer;
use window::refusals::Refusal;

// Whether a call put a new value into the window.
fn is_new(answer: Result<Answer, Refusal>) -> bool
    ensures { result ≡ is_new_of (answer_of answer) }
{
    matches!(answer, Ok(Answer::New))
}

// Whether a call found the value of its sequence.
fn is_found(answer: Result<Answer, Refusal>) -> bool
    ensures { result ≡ is_found_of (answer_of answer) }
{
    matches!(answer, Ok(Answer::Found(_)))
}
