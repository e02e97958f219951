// Why a call refuses, and the tests that calls share: the limits of refusals 1 to 3, the lengths of the lent lists, refusal 6, and the
// limit of refusals 9 and 10.
ghost use Rattle.std.specs.Prelude.{◌≡◌, ◌≤◌};
ghost use Rattle.window.specs.Refusals.{verdict_number, limits as limits_of, long_enough_of, fits as fits_of, fits_with_list_of, is_wire_number_of};

use crate::AdaptiveReceiverPacketWindow;
use crate::memory::{BLOCK_WORDS, PAGE_WORDS, block_count, capacity, page_count};

// The refusals of documents 01 and 02, in the order of their numbers 1 to 12 (`refusal_number_of`).
#[derive(Clone, Copy)]
pub enum Refusal {
    WindowSize,
    SparseCells,
    DemoteAt,
    Occupied,
    RangeCount,
    ShortMemory,
    Unsound,
    Budget,
    Base,
    Sequence,
    ShortList,
    LossList,
}

// The number of a refusal.
impl From<Refusal> for u32 {
    ghost use Rattle.window.specs.Refusals.{refusal_number_of};

    ghost from_gives = { λ why number. number ≡ refusal_number_of why };

    fn from(why: Refusal) -> u32 {
        match why {
            Refusal::WindowSize => 1,
            Refusal::SparseCells => 2,
            Refusal::DemoteAt => 3,
            Refusal::Occupied => 4,
            Refusal::RangeCount => 5,
            Refusal::ShortMemory => 6,
            Refusal::Unsound => 7,
            Refusal::Budget => 8,
            Refusal::Base => 9,
            Refusal::Sequence => 10,
            Refusal::ShortList => 11,
            Refusal::LossList => 12,
        }
    }
}

// Refusals 1 to 3, in this order.
#[tactic(auto, unfolding(crate::specs::Refusals::limits))]
pub fn limits(window_size: u32, n: u32, demote_at: u32) -> Result<(), Refusal>
    ensures { verdict_number result ≡ limits_of window_size n demote_at }
{
    if window_size < 1 || 65536 < window_size {
        return Err(Refusal::WindowSize);
    }
    if n < 1 || 63 < n {
        return Err(Refusal::SparseCells);
    }
    if n < demote_at {
        return Err(Refusal::DemoteAt);
    }
    Ok(())
}

// Whether the lists, by their lengths, are as long as `window_size` names them.
pub fn long_enough(
    window_size: u32,
    sequences: usize,
    values: usize,
    pages: usize,
    blocks: usize,
) -> bool
    requires { window_size ≤ 65536 }
    ensures { result ≡ long_enough_of window_size sequences values pages blocks }
{
    let cells = capacity(window_size);
    if sequences < cells {
        return false;
    }
    if values < cells {
        return false;
    }
    if pages < PAGE_WORDS * page_count(window_size) {
        return false;
    }
    BLOCK_WORDS * block_count(window_size) <= blocks
}

// Whether a call without a return list is not refused 6: the header is inside the limits of 1 to 3, and the lists,
// by their lengths, are as long as it names them.
pub fn fits(
    w: AdaptiveReceiverPacketWindow,
    sequences: usize,
    values: usize,
    pages: usize,
    blocks: usize,
) -> bool
    ensures { result ≡ fits_of w sequences values pages blocks }
{
    limits(w.window_size, w.n, w.demote_at).is_ok()
        && long_enough(w.window_size, sequences, values, pages, blocks)
}

// The same for a call with a return list, which has 384 places or more.
pub fn fits_with_list(
    w: AdaptiveReceiverPacketWindow,
    sequences: usize,
    values: usize,
    pages: usize,
    blocks: usize,
    returned: usize,
) -> bool
    ensures { result ≡ fits_with_list_of w sequences values pages blocks returned }
{
    if returned < 384 {
        return false;
    }
    fits(w, sequences, values, pages, blocks)
}

// Whether a number has 31 bits, as a sequence on the wire: below 2147483648.
pub fn is_wire_number(number: u32) -> bool
    ensures { result ≡ is_wire_number_of number }
{
    number < 0x8000_0000
}
