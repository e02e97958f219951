// What the calls share: an outcome with nothing returned, whether a page's values are reachable, sequences and distances, and the
// count of a range; admits.rt has the refusals, reading.rt what a reading call is lent.
#![tactic(auto)]

pub mod admits;
pub mod reading;

ghost use Rattle.std.specs.Prelude.{◌≡◌, ◌+◌, ◌/◌, ◌<◌};
ghost use Rattle.window.specs.Memory.{words_per_block, RowIn};
ghost use Rattle.model.specs.Table.{range_count_of, sequence_at_of, distance as distance_of};
ghost use Rattle.page_base.specs.Promises.{read_answer_of};
ghost use Rattle.call_base.specs.Answers.{given_of, replied, refused_by};
ghost use Rattle.call_base.specs.Promises.{Reachable};

use block_marks::marks::page_retired;
use window::AdaptiveReceiverPacketWindow;
use window::answers::{Answer, Outcome, Step};
use window::refusals::Refusal;

// The answer or refusal, the header as it is and nothing returned.
pub fn reply(w: AdaptiveReceiverPacketWindow, answer: Result<Answer, Refusal>) -> Step
    ensures { result ≡ replied w answer }
{
    Step {
        window: w,
        answer: Outcome { answer, count: 0 },
    }
}

// A refusal: the header as it is and nothing returned.
pub fn refuse(w: AdaptiveReceiverPacketWindow, why: Refusal) -> Step
    ensures { result ≡ refused_by w why }
{
    reply(w, Err(why))
}

// The answer of a call for what a search gave. (No `From`: that would say that any number is an answer.)
pub fn read_answer(read: Option<u32>) -> Answer
    ensures { given_of result ≡ read_answer_of read }
{
    match read {
        None => Answer::Absent,
        Some(value) => Answer::Found(value),
    }
}

// Whether values of a page are reachable. Always, unless some retired value is held.
#[tactic(auto, using(crate::proofs::RetiredLaws::marks))]
pub fn reachable(w: AdaptiveReceiverPacketWindow, blocks: &[u64], page: usize) -> bool
    requires { (page < 1024) × RowIn words_per_block (page / 64) blocks.now }
    ensures { Reachable w blocks.now page result }
{
    if w.retired_held == 0 {
        return true;
    }
    !page_retired(blocks, w.retired_blocks, page)
}

// The sequence at distance `d` from the base: sums are modulo 2^31.
pub fn sequence_at(base: u32, d: u32) -> u32
    ensures { result ≡ sequence_at_of base d }
{
    base.wrapping_add(d) % 0x8000_0000
}

// How far a sequence is from a base: 31 bits.
#[tactic(auto, unfolding(model::specs::Sequences::distance))]
pub fn distance(base: u32, sequence: u32) -> u32
    ensures { result ≡ distance_of base sequence }
{
    sequence.wrapping_sub(base) % 0x8000_0000
}

// How many positions a range has: the distance from first to last, and one.
#[tactic(auto, unfolding(model::specs::Sequences::distance, model::specs::Table::range_count_of))]
pub fn range_count(first: u32, last: u32) -> u32
    ensures { result ≡ range_count_of first last }
{
    distance(first, last) + 1
}
