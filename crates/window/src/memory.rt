// How much memory a window_size names, where a sequence stands in it, and words written.
ghost use Rattle.std.specs.Prelude.{◌≡◌, ◌-◌, ◌≤◌, length};
ghost use Rattle.window.specs.Memory.{capacity as capacity_of, page_count_of, block_count_of, position as position_of, zeroed};

use crate::AdaptiveReceiverPacketWindow;

// The positions of a page.
pub const PAGE_SLOTS: usize = AdaptiveReceiverPacketWindow::PAGE_SLOTS;

// The words of a page, and of a block.
pub const PAGE_WORDS: usize = 3;

pub const BLOCK_WORDS: usize = 3;

// The capacity less one: the bits of a sequence that are its position. Up to 64 it is a constant, by a branch: so a position does not
// wait for the header that the call before gave.
pub fn mask(window_size: u32) -> usize
    requires { window_size ≤ 65536 }
    ensures { result ≡ capacity_of window_size - 1 }
{
    if window_size <= 64 {
        return 63;
    }
    let bits = (32 - u32::leading_zeros(window_size - 1)) as usize;
    (1 << bits) - 1
}

// `window_size`, at least 64, raised to a power of two.
pub fn capacity(window_size: u32) -> usize
    requires { window_size ≤ 65536 }
    ensures { result ≡ capacity_of window_size }
{
    mask(window_size) + 1
}

// 64 positions make a page.
pub fn page_count(window_size: u32) -> usize
    requires { window_size ≤ 65536 }
    ensures { result ≡ page_count_of window_size }
{
    capacity(window_size) / PAGE_SLOTS
}

// 64 pages make a block; the last may have fewer.
pub fn block_count(window_size: u32) -> usize
    requires { window_size ≤ 65536 }
    ensures { result ≡ block_count_of window_size }
{
    (page_count(window_size) + 63) / 64
}

// The position of a sequence: its remainder by the capacity, which is a power of two.
pub fn position(window_size: u32, sequence: u32) -> usize
    requires { window_size ≤ 65536 }
    ensures { result ≡ position_of window_size sequence }
{
    sequence as usize & mask(window_size)
}

// The first `n` words become 0; the others stay.
pub fn clear_words(words: &mut [u64], n: usize)
    requires { n ≤ length words.old }
    ensures { words.new ≡ zeroed n words.old }
{
    words[..n].fill(0);
}
