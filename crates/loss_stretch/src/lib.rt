// A range of sequences as stretches that are all live or all lost, by one mask for each row of 64 sequences, which have the positions of
// one page.
#![tactic(auto)]

ghost use Rattle.std.specs.Prelude.{◌≡◌, ◌≤◌, ◌<◌};
ghost use Rattle.acknowledge.specs.Promises.{ListsLent};
ghost use Rattle.loss_stretch.specs.Promises.{row_end_of, MasksRow, KnowsAt, KnowsRow, Stretches};

use acknowledge::run::page_mask;
use call_base::{reachable, sequence_at};
use page_base::{page_cells, page_words};
use window::AdaptiveReceiverPacketWindow;
use window::memory::{PAGE_SLOTS, position};

// Bit j: the sequence at position j of the row of `sequence` is live.
#[tactic(auto, using(crate::proofs::RowLaws::masks))]
fn live_mask(
    w: AdaptiveReceiverPacketWindow,
    sequences: &[u32],
    pages: &[u64],
    blocks: &[u64],
    sequence: u32,
) -> u64
    requires { ListsLent w sequences.now pages.now blocks.now }
    ensures { MasksRow w sequences.now pages.now blocks.now sequence result }
{
    let page = position(w.window_size, sequence) / PAGE_SLOTS;
    if !reachable(w, blocks, page) {
        return 0;
    }
    let words = page_words(pages, page);
    let cells = page_cells(sequences, page);
    page_mask(cells, words, w.n as usize, sequence / 64)
}

// The mask of the row of `sequence`, which is at distance `d` in its range: `mask` is that, unless the range or the row begins there.
fn row_at(
    w: AdaptiveReceiverPacketWindow,
    sequences: &[u32],
    pages: &[u64],
    blocks: &[u64],
    sequence: u32,
    d: u32,
    mask: u64,
) -> u64
    requires { ListsLent w sequences.now pages.now blocks.now × KnowsAt w sequences.now pages.now blocks.now sequence d mask }
    ensures { MasksRow w sequences.now pages.now blocks.now sequence result }
{
    if 0 < d && sequence % 64 != 0 {
        return mask;
    }
    live_mask(w, sequences, pages, blocks, sequence)
}

// The first bit from `slot` on that is not as bit `slot` is; 64 if all are.
fn row_end(mask: u64, slot: usize) -> usize
    requires { slot < 64 }
    ensures value { result ≡ row_end_of mask slot }
    ensures within { (slot < result) × (result ≤ 64) }
{
    if words::bit(mask, slot) {
        return words::lowest(!mask, slot);
    }
    words::lowest(mask, slot)
}

// The mask of a row, whether the stretch is lost, and how many sequences it has.
#[derive(Clone, Copy)]
pub struct Stretch {
    pub mask: u64,
    pub lost: bool,
    pub length: u32,
}

// The stretch of a range of `count` sequences from distance `d` on, at most to the end of its row. `mask` is that of the row, unless the
// range or the row begins there.
pub fn next_stretch(
    w: AdaptiveReceiverPacketWindow,
    sequences: &[u32],
    pages: &[u64],
    blocks: &[u64],
    first: u32,
    count: u32,
    d: u32,
    mask: u64,
) -> Stretch
    requires { ListsLent w sequences.now pages.now blocks.now × (d < count) × KnowsRow w sequences.now pages.now blocks.now first d mask }
    ensures { Stretches w sequences.now pages.now blocks.now first count d result }
{
    let sequence = sequence_at(first, d);
    let slot = (sequence % 64) as usize;
    let row = row_at(w, sequences, pages, blocks, sequence, d, mask);
    let lost = !words::bit(row, slot);
    let length = (row_end(row, slot) - slot) as u32;
    Stretch {
        mask: row,
        lost,
        length: length.min(count - d),
    }
}
