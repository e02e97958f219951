// stranger, check, set_base and take_front in C's calling convention, as the calls of c_calls. They are compiled apart, so that get,
// which stranger uses, the removal that take_front begins with, and the advance of the point keep their one caller there.
#![tactic(auto)]

ghost use Rattle.window.specs.Lent.{lent, lent_mut};
ghost use Rattle.model.specs.Calls.{stranger as stranger_of, check as check_of, set_base, take_front, ask};
ghost use Rattle.c_calls.specs.Numbers.{NumbersMeetBy};

use c_calls::NumberedStep;
use call_check::check;
use call_point::set_base::set_base;
use call_point::take_front::take_front;
use call_read::stranger::stranger;
use window::AdaptiveReceiverPacketWindow;

#[unsafe(no_mangle)]
pub extern "C" fn packet_window_stranger(
    w: AdaptiveReceiverPacketWindow,
    sequences: &[u32],
    values: &[u32],
    pages: &[u64],
    blocks: &[u64],
    first: u32,
    last: u32,
) -> NumberedStep
    ensures { NumbersMeetBy (ask (stranger_of first last)) w (lent sequences) (lent values) (lent pages) (lent blocks) result }
{
    NumberedStep::from(stranger(w, sequences, values, pages, blocks, first, last))
}

#[unsafe(no_mangle)]
pub extern "C" fn packet_window_check(
    w: AdaptiveReceiverPacketWindow,
    sequences: &[u32],
    values: &[u32],
    pages: &[u64],
    blocks: &[u64],
) -> NumberedStep
    ensures { NumbersMeetBy (ask check_of) w (lent sequences) (lent values) (lent pages) (lent blocks) result }
{
    NumberedStep::from(check(w, sequences, values, pages, blocks))
}

#[unsafe(no_mangle)]
pub extern "C" fn packet_window_set_base(
    w: AdaptiveReceiverPacketWindow,
    sequences: &[u32],
    values: &[u32],
    pages: &[u64],
    blocks: &[u64],
    base: u32,
) -> NumberedStep
    ensures { NumbersMeetBy (set_base base) w (lent sequences) (lent values) (lent pages) (lent blocks) result }
{
    NumberedStep::from(set_base(w, sequences, values, pages, blocks, base))
}

#[unsafe(no_mangle)]
pub extern "C" fn packet_window_take_front(
    w: AdaptiveReceiverPacketWindow,
    sequences: &mut [u32],
    values: &mut [u32],
    pages: &mut [u64],
    blocks: &mut [u64],
) -> NumberedStep
    ensures { NumbersMeetBy take_front w (lent_mut sequences) (lent_mut values) (lent_mut pages) (lent_mut blocks) result }
{
    NumberedStep::from(take_front(w, sequences, values, pages, blocks))
}
