// write_losses and read_losses in C's calling convention, as the calls of c_calls: the library's fourth object.
#![tactic(auto)]

ghost use Rattle.window.specs.Lent.{lent, lent_mut};
ghost use Rattle.c_losses.specs.Promises.{NumbersWriteLossesBy, NumbersReadLossesBy};

use c_calls::NumberedStep;
use call_losses::{read_losses, write_losses};
use window::AdaptiveReceiverPacketWindow;

#[unsafe(no_mangle)]
pub extern "C" fn packet_window_write_losses(
    w: AdaptiveReceiverPacketWindow,
    sequences: &[u32],
    values: &[u32],
    pages: &[u64],
    blocks: &[u64],
    words: &mut [u32],
    first: u32,
    last: u32,
) -> NumberedStep
    ensures { NumbersWriteLossesBy first last w (lent sequences) (lent values) (lent pages) (lent blocks) (lent_mut words) result }
{
    NumberedStep::from(write_losses(w, sequences, values, pages, blocks, words, first, last))
}

#[unsafe(no_mangle)]
pub extern "C" fn packet_window_read_losses(
    w: AdaptiveReceiverPacketWindow,
    sequences: &[u32],
    values: &[u32],
    pages: &[u64],
    blocks: &[u64],
    words: &[u32],
    lost: &mut [u8],
    first: u32,
    last: u32,
) -> NumberedStep
    ensures { NumbersReadLossesBy first last w (lent sequences) (lent values) (lent pages) (lent blocks) (lent words) (lent_mut lost) result }
{
    NumberedStep::from(read_losses(
        w, sequences, values, pages, blocks, words, lost, first, last,
    ))
}
