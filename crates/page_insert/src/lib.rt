// A value into a page. `sequences` and `values` are the page's 64 cells: a part of the lent memory, which begins at 64 × page.
#![tactic(auto)]

ghost use Rattle.std.specs.Prelude.{◌≡◌, ◌<◌, ◌≤◌, length, IfSome, unwrap_or};
ghost use Rattle.model.specs.Pages.{put_cell};
ghost use Rattle.page_base.specs.Page.{page as page_of};
ghost use Rattle.page_insert.specs.Insert.{spread as spread_of, free_of};
ghost use Rattle.page_insert.specs.Promises.{Promotes, Replaces, InsertsNew, Inserts};

use page_base::find::slot_at;
use page_base::{DENSE, PageWords, SPARSE};
use window::memory::PAGE_SLOTS;
use window::refusals::Refusal;

// What an insert into a page answers that is not refused.
#[derive(Clone, Copy)]
pub enum InsertAnswer {
    New,
    Promoted,
    Replaced(u32),
}

// The page's words after an insert, and its answer or its refusal: Occupied, or Unsound, where the page's words do not fit each other.
// A refused insert wrote nothing.
#[derive(Clone, Copy)]
pub struct Inserted {
    pub words: PageWords,
    pub answer: Result<InsertAnswer, Refusal>,
}

// The lowest cell not in use.
fn free_cell(filled: u64) -> Option<usize>
    ensures within { IfSome result (λ c. c < 64) }
    ensures lowest { unwrap_or result 64 ≡ free_of filled }
{
    let c = words::lowest(!filled, 0);
    if c < PAGE_SLOTS {
        return Some(c);
    }
    None
}

// The sequence and the value into cell c, which comes into use, of a page of this kind.
fn put(
    sequences: &mut [u32],
    values: &mut [u32],
    w: PageWords,
    kind: u64,
    c: usize,
    sequence: u32,
    value: u32,
) -> PageWords
    requires { (length sequences.old ≡ 64) × (length values.old ≡ 64) × (c < 64) }
    ensures { page_of result sequences.new values.new ≡ put_cell (page_of w sequences.old values.old) kind c sequence value }
{
    let slot = (sequence % 64) as usize;
    let occupied = words::set(w.occupied, slot);
    let filled = words::set(w.filled, c);
    sequences[c] = sequence;
    values[c] = value;
    PageWords {
        kind,
        occupied,
        filled,
    }
}

// The 64 cells, as an array.
fn copied(cells: &[u32]) -> [u32; PAGE_SLOTS]
    requires { length cells.now ≡ 64 }
    ensures { result ≡ cells.now }
{
    let mut copy = [0u32; PAGE_SLOTS];
    copy.copy_from_slice(cells);
    copy
}

// The first n of `from` into `cells`, each to the position of its sequence.
#[tactic(auto, using(std::proofs::lemmas::Grind::common_steps), unfolding(crate::specs::Insert::spread))]
fn spread(cells: &mut [u32], sequences: &[u32; PAGE_SLOTS], from: &[u32; PAGE_SLOTS], n: usize)
    requires { (n ≤ 64) × (length cells.old ≡ 64) }
    ensures { cells.new ≡ spread_of sequences.now from.now n cells.old }
{
    for c in 0..n {
        let slot = (sequences[c] % 64) as usize;
        cells[slot] = from[c];
    }
}

// A sparse page whose first n cells are in use becomes dense: each value moves to the cell of its position.
fn promote(sequences: &mut [u32], values: &mut [u32], w: PageWords, n: usize) -> PageWords
    requires { (length sequences.old ≡ 64) × (length values.old ≡ 64) × (n < 64) }
    ensures { Promotes n w sequences.old values.old result sequences.new values.new }
{
    let s = copied(sequences);
    let v = copied(values);
    spread(sequences, &s, &s, n);
    spread(values, &s, &v, n);
    PageWords {
        kind: DENSE,
        occupied: w.occupied,
        filled: w.occupied,
    }
}

// At an occupied position, whose value is in cell c: the same sequence, the value is replaced; another, refused.
fn replace(
    sequences: &[u32],
    values: &mut [u32],
    w: PageWords,
    c: usize,
    sequence: u32,
    value: u32,
) -> Inserted
    requires { (length sequences.now ≡ 64) × (length values.old ≡ 64) × (c < 64) }
    ensures { Replaces w sequences.now values.old c sequence value result values.new }
{
    if sequences[c] == sequence {
        let old = values[c];
        values[c] = value;
        return Inserted {
            words: w,
            answer: Ok(InsertAnswer::Replaced(old)),
        };
    }
    Inserted {
        words: w,
        answer: Err(Refusal::Occupied),
    }
}

// At a free position. A sparse page with n values becomes dense.
fn insert_new(
    sequences: &mut [u32],
    values: &mut [u32],
    w: PageWords,
    n: usize,
    sequence: u32,
    value: u32,
) -> Inserted
    requires { (length sequences.old ≡ 64) × (length values.old ≡ 64) × (0 < n) × (n < 64) }
    ensures { InsertsNew n w sequences.old values.old sequence value result sequences.new values.new }
{
    let slot = (sequence % 64) as usize;
    if w.kind == DENSE {
        let words = put(sequences, values, w, DENSE, slot, sequence, value);
        return Inserted {
            words,
            answer: Ok(InsertAnswer::New),
        };
    }
    if words::count(w.occupied) < n {
        let Some(c) = free_cell(w.filled) else {
            return Inserted {
                words: w,
                answer: Err(Refusal::Unsound),
            };
        };
        let words = put(sequences, values, w, SPARSE, c, sequence, value);
        return Inserted {
            words,
            answer: Ok(InsertAnswer::New),
        };
    }
    if w.filled != words::span(0, n) {
        return Inserted {
            words: w,
            answer: Err(Refusal::Unsound),
        };
    }
    let dense = promote(sequences, values, w, n);
    let words = put(sequences, values, dense, DENSE, slot, sequence, value);
    Inserted {
        words,
        answer: Ok(InsertAnswer::Promoted),
    }
}

// The sequence and the value into the page.
pub fn insert(
    sequences: &mut [u32],
    values: &mut [u32],
    w: PageWords,
    n: usize,
    sequence: u32,
    value: u32,
) -> Inserted
    requires { (length sequences.old ≡ 64) × (length values.old ≡ 64) × (0 < n) × (n < 64) }
    ensures { Inserts n w sequences.old values.old sequence value result sequences.new values.new }
{
    let slot = (sequence % 64) as usize;
    match slot_at(sequences, w, n, slot) {
        Some(c) => replace(sequences, values, w, c, sequence, value),
        None => insert_new(sequences, values, w, n, sequence, value),
    }
}
