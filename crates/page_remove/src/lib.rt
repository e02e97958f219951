// A value, or several, out of a page. `sequences` and `values` are the page's 64 cells: a part of the lent memory, which begins at
// 64 × page.
#![tactic(auto)]

pub mod drain;

ghost use Rattle.std.specs.Prelude.{◌≡◌, ◌<◌, length};
ghost use Rattle.words.specs.Word.{count as count_of};
ghost use Rattle.model.specs.Pages.{packed};
ghost use Rattle.page_base.specs.Page.{cells as cells_of, page as page_of};
ghost use Rattle.page_remove.specs.Remove.{packed_cells, taken_words, settled_of, settle_page_of};
ghost use Rattle.page_remove.specs.Promises.{Removes};

use page_base::find::find;
use page_base::{DENSE, Left, NONE, PageWords, SPARSE};

// The words of a page after a removal, and what it left there.
#[derive(Clone, Copy)]
pub struct Settled {
    pub words: PageWords,
    pub left: Left,
}

// The same, and the value that the removal took out.
#[derive(Clone, Copy)]
pub struct Removed {
    pub words: PageWords,
    pub answer: Option<u32>,
    pub left: Left,
}

// The words once cell c, whose value is at position `slot`, is no longer in use.
pub fn take_cell(w: PageWords, slot: usize, c: usize) -> PageWords
    requires { (slot < 64) × (c < 64) }
    ensures { result ≡ taken_words w slot c }
{
    let occupied = words::clear(w.occupied, slot);
    let filled = words::clear(w.filled, c);
    PageWords {
        kind: w.kind,
        occupied,
        filled,
    }
}

// What stands at the occupied positions, packed into the first cells by rising position. Nothing is overwritten unread.
fn pack(cells: &mut [u32], occupied: u64)
    requires { length cells.old ≡ 64 }
    ensures { cells_of cells.new ≡ packed_cells occupied (cells_of cells.old) }
{
    let mut rest = occupied;
    let mut next: usize = 0;
    while rest != 0 {
        let slot = words::lowest(rest, 0);
        cells[next] = cells[slot];
        rest = words::clear(rest, slot);
        next += 1;
    }
}

// A dense page that holds a value becomes sparse.
fn demote(sequences: &mut [u32], values: &mut [u32], w: PageWords) -> PageWords
    requires { (length sequences.old ≡ 64) × (length values.old ≡ 64) × (0 < count_of w.occupied) }
    ensures { page_of result sequences.new values.new ≡ packed (page_of w sequences.old values.old) }
{
    let occupied = w.occupied;
    let filled = words::span(0, words::count(occupied));
    pack(sequences, occupied);
    pack(values, occupied);
    PageWords {
        kind: SPARSE,
        occupied,
        filled,
    }
}

// After the last value of a removal: an emptied page gets kind 0 and empty words; a dense page with 1 to demote_at values becomes
// sparse.
pub fn settle(sequences: &mut [u32], values: &mut [u32], w: PageWords, demote_at: usize) -> Settled
    requires { (length sequences.old ≡ 64) × (length values.old ≡ 64) }
    ensures { settled_of result sequences.new values.new ≡ settle_page_of demote_at (page_of w sequences.old values.old) }
{
    let emptied = w.occupied == 0;
    if emptied {
        let empty = PageWords {
            kind: NONE,
            occupied: 0,
            filled: 0,
        };
        let left = Left {
            values: 0,
            demoted: false,
        };
        return Settled { words: empty, left };
    }
    let count = words::count(w.occupied);
    if w.kind == DENSE && count <= demote_at {
        let words = demote(sequences, values, w);
        let left = Left {
            values: count,
            demoted: true,
        };
        return Settled { words, left };
    }
    let left = Left {
        values: count,
        demoted: false,
    };
    Settled { words: w, left }
}

// The value of the sequence taken out of the page.
pub fn remove(
    sequences: &mut [u32],
    values: &mut [u32],
    w: PageWords,
    n: usize,
    demote_at: usize,
    sequence: u32,
) -> Removed
    requires { (length sequences.old ≡ 64) × (length values.old ≡ 64) × (n < 64) }
    ensures { Removes n demote_at w sequences.old values.old sequence result sequences.new values.new }
{
    let slot = (sequence % 64) as usize;
    let Some(c) = find(sequences, w, n, sequence) else {
        let left = Left {
            values: words::count(w.occupied),
            demoted: false,
        };
        return Removed {
            words: w,
            answer: None,
            left,
        };
    };
    let value = values[c];
    let taken = take_cell(w, slot, c);
    let s = settle(sequences, values, taken, demote_at);
    Removed {
        words: s.words,
        answer: Some(value),
        left: s.left,
    }
}
