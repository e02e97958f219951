// The calls in C's calling convention: header and answers by value, a list as a pointer and its length. `./library` makes
// the library. retire.rt has the calls that remove a range, clear and release.
#![tactic(auto)]

pub mod retire;
pub mod version;

ghost use Rattle.std.specs.Prelude.{◌≡◌};
ghost use Rattle.window.specs.Lent.{lent, lent_mut};
ghost use Rattle.model.specs.Calls.{get as get_of, successor_after, first_from, iter as iter_of, insert as insert_of, exchange as exchange_of, remove as remove_of, ask};
ghost use Rattle.c_calls.specs.Numbers.{numbered as numbered_of, NumbersMeetBy, NumbersMeetInto, CreatesBy};

use call_point::exchange::exchange;
use call_point::insert::insert;
use call_point::remove::remove;
use call_read::{first_from, get, iter, successor_after};
use window::AdaptiveReceiverPacketWindow;
use window::answers::{Answer, Step};
use window::refusals::Refusal;

// code: 0 done, 1 new, 2 replaced, 3 absent, 4 found, 5 a pair, 6 released, 7 refused; then the values of the answer, or the
// refusal's number.
#[repr(C)]
#[derive(Clone, Copy)]
pub struct NumberedAnswer {
    pub code: u32,
    pub first: u32,
    pub second: u32,
    pub third: u32,
    pub fourth: u32,
}

// The header after a call, its answer, and how many values it put into its return list.
#[repr(C)]
#[derive(Clone, Copy)]
pub struct NumberedStep {
    pub window: AdaptiveReceiverPacketWindow,
    pub answer: NumberedAnswer,
    pub count: u32,
}

fn numbered(code: u32, first: u32, second: u32, third: u32, fourth: u32) -> NumberedAnswer
    ensures { result ≡ numbered_of code first second third fourth }
{
    NumberedAnswer {
        code,
        first,
        second,
        third,
        fourth,
    }
}

// An answer or a refusal in numbers.
impl From<Result<Answer, Refusal>> for NumberedAnswer {
    ghost use Rattle.call_base.specs.Answers.{answer_of};
    ghost use Rattle.c_calls.specs.Numbers.{numbers_of};

    ghost from_gives = { λ answer result. result ≡ numbers_of (answer_of answer) };

    fn from(answer: Result<Answer, Refusal>) -> NumberedAnswer {
        match answer {
            Ok(Answer::Done) => numbered(0, 0, 0, 0, 0),
            Ok(Answer::New) => numbered(1, 0, 0, 0, 0),
            Ok(Answer::Replaced(value)) => numbered(2, value, 0, 0, 0),
            Ok(Answer::Absent) => numbered(3, 0, 0, 0, 0),
            Ok(Answer::Found(number)) => numbered(4, number, 0, 0, 0),
            Ok(Answer::Pair(sequence, value, next, reads)) => numbered(
                5, sequence, value, next, reads,
            ),
            Ok(Answer::Ended(reads)) => numbered(0, 0, 0, 0, reads),
            Ok(Answer::Released(values, units)) => numbered(6, values, units, 0, 0),
            Err(why) => numbered(7, u32::from(why), 0, 0, 0),
        }
    }
}

// A step in numbers.
impl From<Step> for NumberedStep {
    ghost use Rattle.c_calls.specs.Numbers.{SameStep};

    ghost from_gives = { λ step result. SameStep step result };

    fn from(step: Step) -> NumberedStep {
        NumberedStep {
            window: step.window,
            answer: NumberedAnswer::from(step.answer.answer),
            count: step.answer.count,
        }
    }
}

// What new gives in numbers; a refusal comes with a header of zeros, with which every call is refused 6.
impl From<Result<AdaptiveReceiverPacketWindow, Refusal>> for NumberedStep {
    ghost use Rattle.window.specs.New.{answer_of as new_answer_of};
    ghost use Rattle.c_calls.specs.Numbers.{numbers_of_new};

    ghost from_gives = { λ made result. result ≡ numbers_of_new (new_answer_of made) };

    fn from(made: Result<AdaptiveReceiverPacketWindow, Refusal>) -> NumberedStep {
        match made {
            Ok(window) => NumberedStep {
                window,
                answer: numbered(0, 0, 0, 0, 0),
                count: 0,
            },
            Err(why) => NumberedStep {
                window: AdaptiveReceiverPacketWindow::fresh(0, 0, 0),
                answer: numbered(7, u32::from(why), 0, 0, 0),
                count: 0,
            },
        }
    }
}

#[unsafe(no_mangle)]
pub extern "C" fn packet_window_new(
    sequences: &mut [u32],
    values: &mut [u32],
    pages: &mut [u64],
    blocks: &mut [u64],
    window_size: u32,
    n: u32,
    demote_at: u32,
) -> NumberedStep
    ensures { CreatesBy window_size n demote_at (lent_mut sequences) (lent_mut values) (lent_mut pages) (lent_mut blocks) result }
{
    NumberedStep::from(AdaptiveReceiverPacketWindow::new(
        sequences,
        values,
        pages,
        blocks,
        window_size,
        n,
        demote_at,
    ))
}

#[unsafe(no_mangle)]
pub extern "C" fn packet_window_get(
    w: AdaptiveReceiverPacketWindow,
    sequences: &[u32],
    values: &[u32],
    pages: &[u64],
    blocks: &[u64],
    sequence: u32,
) -> NumberedStep
    ensures { NumbersMeetBy (ask (get_of sequence)) w (lent sequences) (lent values) (lent pages) (lent blocks) result }
{
    NumberedStep::from(get(w, sequences, values, pages, blocks, sequence))
}

#[unsafe(no_mangle)]
pub extern "C" fn packet_window_successor_after(
    w: AdaptiveReceiverPacketWindow,
    sequences: &[u32],
    values: &[u32],
    pages: &[u64],
    blocks: &[u64],
    sequence: u32,
) -> NumberedStep
    ensures { NumbersMeetBy (ask (successor_after sequence)) w (lent sequences) (lent values) (lent pages) (lent blocks) result }
{
    NumberedStep::from(successor_after(w, sequences, values, pages, blocks, sequence))
}

#[unsafe(no_mangle)]
pub extern "C" fn packet_window_first_from(
    w: AdaptiveReceiverPacketWindow,
    sequences: &[u32],
    values: &[u32],
    pages: &[u64],
    blocks: &[u64],
    sequence: u32,
) -> NumberedStep
    ensures { NumbersMeetBy (ask (first_from sequence)) w (lent sequences) (lent values) (lent pages) (lent blocks) result }
{
    NumberedStep::from(first_from(w, sequences, values, pages, blocks, sequence))
}

#[unsafe(no_mangle)]
pub extern "C" fn packet_window_iter(
    w: AdaptiveReceiverPacketWindow,
    sequences: &[u32],
    values: &[u32],
    pages: &[u64],
    blocks: &[u64],
    cell: u32,
) -> NumberedStep
    ensures { NumbersMeetBy (ask (iter_of cell)) w (lent sequences) (lent values) (lent pages) (lent blocks) result }
{
    NumberedStep::from(iter(w, sequences, values, pages, blocks, cell))
}

#[unsafe(no_mangle)]
pub extern "C" fn packet_window_exchange(
    w: AdaptiveReceiverPacketWindow,
    sequences: &[u32],
    values: &mut [u32],
    pages: &[u64],
    blocks: &[u64],
    sequence: u32,
    value: u32,
) -> NumberedStep
    ensures { NumbersMeetBy (exchange_of sequence value) w (lent sequences) (lent_mut values) (lent pages) (lent blocks) result }
{
    NumberedStep::from(exchange(w, sequences, values, pages, blocks, sequence, value))
}

#[unsafe(no_mangle)]
pub extern "C" fn packet_window_remove(
    w: AdaptiveReceiverPacketWindow,
    sequences: &mut [u32],
    values: &mut [u32],
    pages: &mut [u64],
    blocks: &mut [u64],
    sequence: u32,
) -> NumberedStep
    ensures { NumbersMeetBy (remove_of sequence) w (lent_mut sequences) (lent_mut values) (lent_mut pages) (lent_mut blocks) result }
{
    NumberedStep::from(remove(w, sequences, values, pages, blocks, sequence))
}

#[unsafe(no_mangle)]
pub extern "C" fn packet_window_insert(
    w: AdaptiveReceiverPacketWindow,
    sequences: &mut [u32],
    values: &mut [u32],
    pages: &mut [u64],
    blocks: &mut [u64],
    returned: &mut [u32],
    sequence: u32,
    value: u32,
) -> NumberedStep
    ensures { NumbersMeetInto (insert_of sequence value) w (lent_mut sequences) (lent_mut values) (lent_mut pages) (lent_mut blocks) (lent_mut returned) result }
{
    NumberedStep::from(insert(
        w, sequences, values, pages, blocks, returned, sequence, value,
    ))
}
