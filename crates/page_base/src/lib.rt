// One page of the window: its words, its 64 cells as a part of the lent memory, and how its values are found and read.
#![tactic(auto)]

pub mod find;

ghost use Rattle.std.specs.Prelude.{◌≡◌, ◌+◌, ◌*◌, ◌≤◌, ◌<◌, length};
ghost use Rattle.window.specs.Memory.{words_per_page, RowIn};
ghost use Rattle.page_base.specs.Page.{words_at, with_page_words, part_of};

use window::memory::{PAGE_SLOTS, PAGE_WORDS};

// The kinds of a page, as the lent memory holds them: numbers, since lent memory may hold any number, and a call on such memory is
// defined too.
pub const NONE: u64 = 0;

pub const SPARSE: u64 = 1;

pub const DENSE: u64 = 2;

// occupied: bit p, position p of the page has a value. filled: bit c, cell c is in use.
#[derive(Clone, Copy)]
pub struct PageWords {
    pub kind: u64,
    pub occupied: u64,
    pub filled: u64,
}

// What a removal left of a page: how many values it holds, and whether it became sparse.
#[derive(Clone, Copy)]
pub struct Left {
    pub values: usize,
    pub demoted: bool,
}

// The words of one page. (A block's words are read by block_marks: over a trait the two would be no plainer than with their names.)
pub fn page_words(pages: &[u64], page: usize) -> PageWords
    requires { (page < 1024) × RowIn words_per_page page pages.now }
    ensures { result ≡ words_at pages.now page }
{
    let a = PAGE_WORDS * page;
    PageWords {
        kind: pages[a],
        occupied: pages[a + 1],
        filled: pages[a + 2],
    }
}

// The words of one page, written.
pub fn put_page_words(pages: &mut [u64], page: usize, words: PageWords)
    requires { (page < 1024) × RowIn words_per_page page pages.old }
    ensures { pages.new ≡ with_page_words pages.old page words }
{
    let a = PAGE_WORDS * page;
    pages[a] = words.kind;
    pages[a + 1] = words.occupied;
    pages[a + 2] = words.filled;
}

// The 64 cells of one page: a part of the lent memory, which begins at 64 × page.
// There is no such function for cells to be written: of a `&mut` of a range that is returned no proof says what the list becomes (tried).
pub fn page_cells(cells: &[u32], page: usize) -> &[u32]
    requires { 64 * page + 64 ≤ length cells.now }
    ensures { result.now ≡ part_of page cells.now }
{
    let from = PAGE_SLOTS * page;
    let to = from + PAGE_SLOTS;
    &cells[from..to]
}
