// The live sequences of one page, from one of its positions upwards. `sequences` are the 64 cells of the page, and `row` says which
// sequences are asked for: 64 × row + j at position j.
ghost use Rattle.std.specs.Prelude.{◌≡◌, ◌<◌, ◌≤◌, length};
ghost use Rattle.acknowledge.specs.Promises.{DenseRun, Masks, Runs, StandsIn};

use page_base::{DENSE, PageWords};
use window::memory::PAGE_SLOTS;

// Of a dense page, whose values are at their own positions.
fn dense_run(sequences: &[u32], filled: u64, slot: usize, row: u32) -> usize
    requires { (length sequences.now ≡ 64) × (slot < 64) }
    ensures { DenseRun sequences.now filled slot row result }
{
    let end = words::lowest(!filled, slot);
    for c in slot..end {
        if sequences[c] / 64 != row {
            return c;
        }
    }
    end
}

// Bit j: the sequence asked for at position j is in one of the first n cells.
fn row_mask(sequences: &[u32], filled: u64, n: usize, row: u32) -> u64
    requires { (length sequences.now ≡ 64) × (n ≤ 64) }
    ensures { Masks sequences.now filled row n result }
{
    let mut mask: u64 = 0;
    for c in 0..n {
        let sequence = sequences[c];
        if sequence / 64 == row && words::bit(filled, c) {
            mask = words::set(mask, (sequence % 64) as usize);
        }
    }
    mask
}

// The first position from `slot` on at which the sequence asked for does not stand; 64 if it stands at all of them.
pub fn page_run(sequences: &[u32], w: PageWords, n: usize, slot: usize, row: u32) -> usize
    requires { (length sequences.now ≡ 64) × (n < 64) × (slot < 64) }
    ensures { Runs n w sequences.now slot row result }
{
    if !words::bit(w.occupied, slot) {
        return slot;
    }
    if w.kind == DENSE {
        return dense_run(sequences, w.filled, slot, row);
    }
    words::lowest(!row_mask(sequences, w.filled, n, row), slot)
}

// Bit j: the sequence asked for stands at position j.
pub fn page_mask(sequences: &[u32], w: PageWords, n: usize, row: u32) -> u64
    requires { (length sequences.now ≡ 64) × (n < 64) }
    ensures { StandsIn n w sequences.now row result }
{
    if w.filled == 0 {
        return 0;
    }
    let cells = if w.kind == DENSE { PAGE_SLOTS } else { n };
    row_mask(sequences, w.filled, cells, row)
}
