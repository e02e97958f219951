// A page's lowest values into a return list, for release and range removal.
ghost use Rattle.std.specs.Prelude.{◌+◌, ◌<◌, ◌≤◌, ◌≡◌, length, drop};
ghost use Rattle.std.proofs.Math.Seq.{paste};
ghost use Rattle.words.specs.Word.{lowest as lowest_of, clear_bit};
ghost use Rattle.page_remove.specs.Promises.{Drains, DrainsDense, run_length_of};

use crate::take_cell;
use page_base::find::slot_at;
use page_base::{DENSE, PageWords};

// The words of a page whose lowest values were taken out, how many they were, and whether each occupied position met had a cell.
// `sound` is a flag beside them, and no Result around them, since what was handed back before is told on an unsound page too.
#[derive(Clone, Copy)]
pub struct Drained {
    pub words: PageWords,
    pub count: usize,
    pub sound: bool,
}

// w without its lowest set bit.
fn clear_lowest(w: u64) -> u64
    requires { 0 < w }
    ensures { result ≡ clear_bit w (lowest_of w 0) }
{
    w & (w - 1)
}

// How many positions in a row from `from` on are selected, at most `most`.
fn run_length(selected: u64, from: usize, most: usize) -> usize
    requires { from < 64 }
    ensures { result ≡ run_length_of selected from most }
{
    let n = words::lowest(!selected, from) - from;
    n.min(most)
}

// The values of `n` cells in a row from `from` on, into `returned` from `at` on. Not by copy_from_slice, which calls memmove here: of the
// C library the archive needs memcpy and memset alone.
fn copy_values(values: &[u32], returned: &mut [u32], from: usize, at: usize, n: usize)
    requires { (from + n ≤ length values.now) × (at + n ≤ length returned.old) }
    ensures { returned.new ≡ paste returned.old at (drop from values.now) n }
{
    for i in 0..n {
        returned[at + i] = values[from + i];
    }
}

// The drain of a dense page, whose cells are its positions: nothing is searched for, the values of positions in a row are copied
// together, and the page's words are made once, at the end. A position by itself is not worth a copy.
fn drain_dense(
    values: &[u32],
    returned: &mut [u32],
    occupied: u64,
    slots: u64,
    at: usize,
    limit: usize,
) -> Drained
    requires { (length values.now ≡ 64) × (at + limit ≤ length returned.old) }
    ensures { DrainsDense occupied values.now slots at limit returned.old result returned.new }
{
    let mut selected = occupied & slots;
    let mut count: usize = 0;
    while selected != 0 {
        if limit <= count {
            break;
        }
        let from = words::lowest(selected, 0);
        let n = run_length(selected, from, limit - count);
        if n == 1 {
            returned[at + count] = values[from];
            selected = clear_lowest(selected);
            count += 1;
            continue;
        }
        copy_values(values, returned, from, at + count, n);
        selected = selected & !words::span(from, from + n);
        count += n;
    }
    let left = (occupied & !slots) | selected;
    Drained {
        words: PageWords {
            kind: DENSE,
            occupied: left,
            filled: left,
        },
        count,
        sound: true,
    }
}

// The drain of any page: the cell of each value is searched for.
fn drain_searched(
    sequences: &[u32],
    values: &[u32],
    returned: &mut [u32],
    w: PageWords,
    n: usize,
    slots: u64,
    at: usize,
    limit: usize,
) -> Drained
    requires { (length sequences.now ≡ 64) × (length values.now ≡ 64) × (n < 64) × (at + limit ≤ length returned.old) }
    ensures { Drains n w sequences.now values.now slots at limit returned.old result returned.new }
{
    let mut left = w;
    let mut count: usize = 0;
    let mut sound = true;
    while count < limit {
        let selected = left.occupied & slots;
        if selected == 0 {
            break;
        }
        let slot = words::lowest(selected, 0);
        let Some(c) = slot_at(sequences, left, n, slot) else {
            sound = false;
            break;
        };
        returned[at + count] = values[c];
        left = take_cell(left, slot, c);
        count += 1;
    }
    Drained {
        words: left,
        count,
        sound,
    }
}

// The values at the positions named by `slots`, by rising position, at most `limit`, into `returned` from `at` on.
pub fn drain(
    sequences: &[u32],
    values: &[u32],
    returned: &mut [u32],
    w: PageWords,
    n: usize,
    slots: u64,
    at: usize,
    limit: usize,
) -> Drained
    requires { (length sequences.now ≡ 64) × (length values.now ≡ 64) × (n < 64) × (at + limit ≤ length returned.old) }
    ensures { Drains n w sequences.now values.now slots at limit returned.old result returned.new }
{
    if w.kind == DENSE && w.filled == w.occupied {
        return drain_dense(values, returned, w.occupied, slots, at, limit);
    }
    drain_searched(sequences, values, returned, w, n, slots, at, limit)
}
