// The host forms in C's calling convention: the header's start is passed, and it is updated in place. `./library` puts them
// into the library.
#![tactic(auto)]

ghost use Rattle.window.specs.Lent.{lent, lent_mut};
ghost use Rattle.model.specs.Calls.{insert as insert_of, remove as remove_of, release_retired};
ghost use Rattle.c_host.specs.Outcomes.{SameOutcome, OutcomeMeetsBy, OutcomeMeetsInto};

use c_calls::NumberedAnswer;
use window::AdaptiveReceiverPacketWindow;
use window::answers::Outcome;

// An answer, and how many values the call put into its return list.
#[repr(C)]
#[derive(Clone, Copy)]
pub struct NumberedOutcome {
    pub answer: NumberedAnswer,
    pub count: u32,
}

// An outcome in numbers.
impl From<Outcome> for NumberedOutcome {
    ghost use Rattle.c_host.specs.Outcomes.{SameOutcome};

    ghost from_gives = { λ outcome result. SameOutcome outcome result };

    fn from(outcome: Outcome) -> NumberedOutcome {
        NumberedOutcome {
            answer: NumberedAnswer::from(outcome.answer),
            count: outcome.count,
        }
    }
}

#[unsafe(no_mangle)]
pub extern "C" fn packet_window_host_insert(
    w: &mut AdaptiveReceiverPacketWindow,
    sequences: &mut [u32],
    values: &mut [u32],
    pages: &mut [u64],
    blocks: &mut [u64],
    returned: &mut [u32],
    sequence: u32,
    value: u32,
) -> NumberedOutcome
    ensures { OutcomeMeetsInto (insert_of sequence value) w (lent_mut sequences) (lent_mut values) (lent_mut pages) (lent_mut blocks) (lent_mut returned) result }
{
    NumberedOutcome::from(call_host::insert(
        w, sequences, values, pages, blocks, returned, sequence, value,
    ))
}

#[unsafe(no_mangle)]
pub extern "C" fn packet_window_host_remove(
    w: &mut AdaptiveReceiverPacketWindow,
    sequences: &mut [u32],
    values: &mut [u32],
    pages: &mut [u64],
    blocks: &mut [u64],
    sequence: u32,
) -> NumberedOutcome
    ensures { OutcomeMeetsBy (remove_of sequence) w (lent_mut sequences) (lent_mut values) (lent_mut pages) (lent_mut blocks) result }
{
    NumberedOutcome::from(call_host::remove(w, sequences, values, pages, blocks, sequence))
}

#[unsafe(no_mangle)]
pub extern "C" fn packet_window_host_release_retired(
    w: &mut AdaptiveReceiverPacketWindow,
    sequences: &[u32],
    values: &[u32],
    pages: &mut [u64],
    blocks: &mut [u64],
    returned: &mut [u32],
    budget: u32,
) -> NumberedOutcome
    ensures { OutcomeMeetsInto (release_retired budget) w (lent sequences) (lent values) (lent_mut pages) (lent_mut blocks) (lent_mut returned) result }
{
    NumberedOutcome::from(call_host::release_retired(
        w, sequences, values, pages, blocks, returned, budget,
    ))
}
