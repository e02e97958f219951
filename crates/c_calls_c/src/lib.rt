// The exports of c_calls: each calls the function of its name there and has its clauses. A crate is a library or a static library, and
// c_calls is used as a library.
#![tactic(auto)]

ghost use Rattle.std.specs.Prelude.{◌≡◌};
ghost use Rattle.window.specs.Lent.{lent, lent_mut};
ghost use Rattle.model.specs.Calls.{get as get_of, successor_after, first_from, iter as iter_of, insert as insert_of, exchange as exchange_of, remove as remove_of, remove_range, clear as clear_of, clear_bounded, release_retired, ask};
ghost use Rattle.c_calls.specs.Numbers.{NumbersMeetBy, NumbersMeetInto, CreatesBy};
ghost use Rattle.c_calls.specs.Version.{version as version_of};

use c_calls::{NumberedStep, retire, version};
use window::AdaptiveReceiverPacketWindow;

#[unsafe(no_mangle)]
pub extern "C" fn packet_window_new(
    sequences: &mut [u32],
    values: &mut [u32],
    pages: &mut [u64],
    blocks: &mut [u64],
    window_size: u32,
    n: u32,
    demote_at: u32,
) -> NumberedStep
    ensures { CreatesBy window_size n demote_at (lent_mut sequences) (lent_mut values) (lent_mut pages) (lent_mut blocks) result }
{
    c_calls::packet_window_new(sequences, values, pages, blocks, window_size, n, demote_at)
}

#[unsafe(no_mangle)]
pub extern "C" fn packet_window_get(
    w: AdaptiveReceiverPacketWindow,
    sequences: &[u32],
    values: &[u32],
    pages: &[u64],
    blocks: &[u64],
    sequence: u32,
) -> NumberedStep
    ensures { NumbersMeetBy (ask (get_of sequence)) w (lent sequences) (lent values) (lent pages) (lent blocks) result }
{
    c_calls::packet_window_get(w, sequences, values, pages, blocks, sequence)
}

#[unsafe(no_mangle)]
pub extern "C" fn packet_window_successor_after(
    w: AdaptiveReceiverPacketWindow,
    sequences: &[u32],
    values: &[u32],
    pages: &[u64],
    blocks: &[u64],
    sequence: u32,
) -> NumberedStep
    ensures { NumbersMeetBy (ask (successor_after sequence)) w (lent sequences) (lent values) (lent pages) (lent blocks) result }
{
    c_calls::packet_window_successor_after(w, sequences, values, pages, blocks, sequence)
}

#[unsafe(no_mangle)]
pub extern "C" fn packet_window_first_from(
    w: AdaptiveReceiverPacketWindow,
    sequences: &[u32],
    values: &[u32],
    pages: &[u64],
    blocks: &[u64],
    sequence: u32,
) -> NumberedStep
    ensures { NumbersMeetBy (ask (first_from sequence)) w (lent sequences) (lent values) (lent pages) (lent blocks) result }
{
    c_calls::packet_window_first_from(w, sequences, values, pages, blocks, sequence)
}

#[unsafe(no_mangle)]
pub extern "C" fn packet_window_iter(
    w: AdaptiveReceiverPacketWindow,
    sequences: &[u32],
    values: &[u32],
    pages: &[u64],
    blocks: &[u64],
    cell: u32,
) -> NumberedStep
    ensures { NumbersMeetBy (ask (iter_of cell)) w (lent sequences) (lent values) (lent pages) (lent blocks) result }
{
    c_calls::packet_window_iter(w, sequences, values, pages, blocks, cell)
}

#[unsafe(no_mangle)]
pub extern "C" fn packet_window_exchange(
    w: AdaptiveReceiverPacketWindow,
    sequences: &[u32],
    values: &mut [u32],
    pages: &[u64],
    blocks: &[u64],
    sequence: u32,
    value: u32,
) -> NumberedStep
    ensures { NumbersMeetBy (exchange_of sequence value) w (lent sequences) (lent_mut values) (lent pages) (lent blocks) result }
{
    c_calls::packet_window_exchange(w, sequences, values, pages, blocks, sequence, value)
}

#[unsafe(no_mangle)]
pub extern "C" fn packet_window_remove(
    w: AdaptiveReceiverPacketWindow,
    sequences: &mut [u32],
    values: &mut [u32],
    pages: &mut [u64],
    blocks: &mut [u64],
    sequence: u32,
) -> NumberedStep
    ensures { NumbersMeetBy (remove_of sequence) w (lent_mut sequences) (lent_mut values) (lent_mut pages) (lent_mut blocks) result }
{
    c_calls::packet_window_remove(w, sequences, values, pages, blocks, sequence)
}

#[unsafe(no_mangle)]
pub extern "C" fn packet_window_insert(
    w: AdaptiveReceiverPacketWindow,
    sequences: &mut [u32],
    values: &mut [u32],
    pages: &mut [u64],
    blocks: &mut [u64],
    returned: &mut [u32],
    sequence: u32,
    value: u32,
) -> NumberedStep
    ensures { NumbersMeetInto (insert_of sequence value) w (lent_mut sequences) (lent_mut values) (lent_mut pages) (lent_mut blocks) (lent_mut returned) result }
{
    c_calls::packet_window_insert(
        w, sequences, values, pages, blocks, returned, sequence, value,
    )
}

#[unsafe(no_mangle)]
pub extern "C" fn packet_window_remove_range(
    w: AdaptiveReceiverPacketWindow,
    sequences: &mut [u32],
    values: &mut [u32],
    pages: &mut [u64],
    blocks: &mut [u64],
    returned: &mut [u32],
    first: u32,
    last: u32,
) -> NumberedStep
    ensures { NumbersMeetInto (remove_range first last) w (lent_mut sequences) (lent_mut values) (lent_mut pages) (lent_mut blocks) (lent_mut returned) result }
{
    retire::packet_window_remove_range(w, sequences, values, pages, blocks, returned, first, last)
}

#[unsafe(no_mangle)]
pub extern "C" fn packet_window_release_retired(
    w: AdaptiveReceiverPacketWindow,
    sequences: &[u32],
    values: &[u32],
    pages: &mut [u64],
    blocks: &mut [u64],
    returned: &mut [u32],
    budget: u32,
) -> NumberedStep
    ensures { NumbersMeetInto (release_retired budget) w (lent sequences) (lent values) (lent_mut pages) (lent_mut blocks) (lent_mut returned) result }
{
    retire::packet_window_release_retired(w, sequences, values, pages, blocks, returned, budget)
}

#[unsafe(no_mangle)]
pub extern "C" fn packet_window_clear(
    w: AdaptiveReceiverPacketWindow,
    sequences: &[u32],
    values: &[u32],
    pages: &mut [u64],
    blocks: &mut [u64],
    returned: &mut [u32],
) -> NumberedStep
    ensures { NumbersMeetInto clear_of w (lent sequences) (lent values) (lent_mut pages) (lent_mut blocks) (lent_mut returned) result }
{
    retire::packet_window_clear(w, sequences, values, pages, blocks, returned)
}

#[unsafe(no_mangle)]
pub extern "C" fn packet_window_clear_bounded(
    w: AdaptiveReceiverPacketWindow,
    sequences: &[u32],
    values: &[u32],
    pages: &mut [u64],
    blocks: &mut [u64],
    returned: &mut [u32],
    number: u32,
) -> NumberedStep
    ensures { NumbersMeetInto (clear_bounded number) w (lent sequences) (lent values) (lent_mut pages) (lent_mut blocks) (lent_mut returned) result }
{
    retire::packet_window_clear_bounded(w, sequences, values, pages, blocks, returned, number)
}

#[unsafe(no_mangle)]
pub extern "C" fn packet_window_version() -> u32
    ensures { result ≡ version_of }
{
    version::packet_window_version()
}
