// The calls that remove a range, clear and release, as lib.rt has the others.
ghost use Rattle.window.specs.Lent.{lent, lent_mut};
ghost use Rattle.model.specs.Calls.{remove_range, clear as clear_of, clear_bounded, release_retired};
ghost use Rattle.c_calls.specs.Numbers.{NumbersMeetInto};

use crate::NumberedStep;
use call_retire::clear::clear;
use call_retire::clear_bounded::clear_bounded;
use call_retire::release_retired::release_retired;
use call_retire::remove_range::remove_range;
use window::AdaptiveReceiverPacketWindow;

#[unsafe(no_mangle)]
pub extern "C" fn packet_window_remove_range(
    w: AdaptiveReceiverPacketWindow,
    sequences: &mut [u32],
    values: &mut [u32],
    pages: &mut [u64],
    blocks: &mut [u64],
    returned: &mut [u32],
    first: u32,
    last: u32,
) -> NumberedStep
    ensures { NumbersMeetInto (remove_range first last) w (lent_mut sequences) (lent_mut values) (lent_mut pages) (lent_mut blocks) (lent_mut returned) result }
{
    NumberedStep::from(remove_range(w, sequences, values, pages, blocks, returned, first, last))
}

#[unsafe(no_mangle)]
pub extern "C" fn packet_window_release_retired(
    w: AdaptiveReceiverPacketWindow,
    sequences: &[u32],
    values: &[u32],
    pages: &mut [u64],
    blocks: &mut [u64],
    returned: &mut [u32],
    budget: u32,
) -> NumberedStep
    ensures { NumbersMeetInto (release_retired budget) w (lent sequences) (lent values) (lent_mut pages) (lent_mut blocks) (lent_mut returned) result }
{
    NumberedStep::from(release_retired(w, sequences, values, pages, blocks, returned, budget))
}

#[unsafe(no_mangle)]
pub extern "C" fn packet_window_clear(
    w: AdaptiveReceiverPacketWindow,
    sequences: &[u32],
    values: &[u32],
    pages: &mut [u64],
    blocks: &mut [u64],
    returned: &mut [u32],
) -> NumberedStep
    ensures { NumbersMeetInto clear_of w (lent sequences) (lent values) (lent_mut pages) (lent_mut blocks) (lent_mut returned) result }
{
    NumberedStep::from(clear(w, sequences, values, pages, blocks, returned))
}

#[unsafe(no_mangle)]
pub extern "C" fn packet_window_clear_bounded(
    w: AdaptiveReceiverPacketWindow,
    sequences: &[u32],
    values: &[u32],
    pages: &mut [u64],
    blocks: &mut [u64],
    returned: &mut [u32],
    number: u32,
) -> NumberedStep
    ensures { NumbersMeetInto (clear_bounded number) w (lent sequences) (lent values) (lent_mut pages) (lent_mut blocks) (lent_mut returned) result }
{
    NumberedStep::from(clear_bounded(w, sequences, values, pages, blocks, returned, number))
}
