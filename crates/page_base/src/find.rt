// Where a page's value is, and reading it. `sequences` and `values` are the 64 cells of the page.
ghost use Rattle.std.specs.Prelude.{◌≡◌, ◌<◌, length, IfSome, unwrap_or};
ghost use Rattle.words.specs.First.{first_from_of};
ghost use Rattle.page_base.specs.Page.{is_at};
ghost use Rattle.page_base.specs.Promises.{SlotAt, Finds, Reads, Exchanges};

use crate::{DENSE, PageWords};

// The first of the first n cells that is in use and holds a sequence of position `slot`.
#[tactic(auto, using(crate::proofs::FindLaws::seeking))]
fn sparse_slot_at(sequences: &[u32], filled: u64, n: usize, slot: usize) -> Option<usize>
    requires { (length sequences.now ≡ 64) × (n < 64) }
    ensures within { IfSome result (λ c. c < n) }
    ensures first { unwrap_or result n ≡ first_from_of (is_at sequences.now filled slot) n 0 }
{
    for c in 0..n {
        if (sequences[c] % 64) as usize == slot && words::bit(filled, c) {
            return Some(c);
        }
    }
    None
}

// The cell of the value at position `slot`.
pub fn slot_at(sequences: &[u32], w: PageWords, n: usize, slot: usize) -> Option<usize>
    requires { (length sequences.now ≡ 64) × (n < 64) × (slot < 64) }
    ensures { SlotAt n w sequences.now slot result }
{
    if w.kind == DENSE {
        if words::bit(w.filled, slot) {
            return Some(slot);
        }
        return None;
    }
    if !words::bit(w.occupied, slot) {
        return None;
    }
    sparse_slot_at(sequences, w.filled, n, slot)
}

// The cell that holds the sequence.
pub fn find(sequences: &[u32], w: PageWords, n: usize, sequence: u32) -> Option<usize>
    requires { (length sequences.now ≡ 64) × (n < 64) }
    ensures { Finds n w sequences.now sequence result }
{
    let slot = (sequence % 64) as usize;
    let c = slot_at(sequences, w, n, slot)?;
    if sequences[c] == sequence {
        return Some(c);
    }
    None
}

// The value of the sequence.
pub fn get(sequences: &[u32], values: &[u32], w: PageWords, n: usize, sequence: u32) -> Option<u32>
    requires { (length sequences.now ≡ 64) × (length values.now ≡ 64) × (n < 64) }
    ensures { Reads n w sequences.now values.now sequence result }
{
    let c = find(sequences, w, n, sequence)?;
    Some(values[c])
}

// The same, and another value is put in its place.
pub fn exchange(
    sequences: &[u32],
    values: &mut [u32],
    w: PageWords,
    n: usize,
    sequence: u32,
    value: u32,
) -> Option<u32>
    requires { (length sequences.now ≡ 64) × (length values.old ≡ 64) × (n < 64) }
    ensures { Exchanges n w sequences.now values.old sequence value result values.new }
{
    let c = find(sequences, w, n, sequence)?;
    let old = values[c];
    values[c] = value;
    Some(old)
}
