// Whether one page is sound by itself: the part of `check` that looks at a page's words and its 64 cells.
#![tactic(auto)]

ghost use Rattle.std.specs.Prelude.{◌≡◌, ◌≤◌, length};
ghost use Rattle.window.specs.Memory.{capacity};
ghost use Rattle.page_base.specs.Page.{cells};
ghost use Rattle.page_check.specs.Promises.{Decides, SoundCell, SoundCells, DecidesPage};

use page_base::{DENSE, NONE, PageWords, SPARSE};
use window::memory::{PAGE_SLOTS, position};
use window::refusals::is_wire_number;

// Whether cell `c`, which is in use and holds this sequence, may do so: 31 bits; "all of this page"; "sparse fills only the first N";
// dense has "each filled cell's sequence at that cell's position".
fn cell_sound(kind: u64, n: usize, window_size: u32, page: usize, c: usize, sequence: u32) -> bool
    requires { (1 ≤ kind) × (kind ≤ 2) × (window_size ≤ 65536) }
    ensures { Decides (SoundCell n (capacity window_size) page kind c sequence) result }
{
    if !is_wire_number(sequence) {
        return false;
    }
    if position(window_size, sequence) / PAGE_SLOTS != page {
        return false;
    }
    if kind == SPARSE {
        return c < n;
    }
    (sequence % 64) as usize == c
}

// Whether every cell in use is sound, and `occupied` names just their positions, each once.
#[tactic(auto, using(crate::proofs::CellLoopLaws::naming))]
fn cells_sound(sequences: &[u32], words: PageWords, n: usize, window_size: u32, page: usize) -> bool
    requires { (length sequences.now ≡ 64) × (1 ≤ words.kind) × (words.kind ≤ 2) × (window_size ≤ 65536) }
    ensures { Decides (SoundCells n (capacity window_size) page words (cells sequences.now)) result }
{
    let kind = words.kind;
    let occupied = words.occupied;
    let mut rest = words.filled;
    let mut named: u64 = 0;
    while rest != 0 {
        let c = words::lowest(rest, 0);
        let sequence = sequences[c];
        let slot = (sequence % 64) as usize;
        if !cell_sound(kind, n, window_size, page, c, sequence) {
            return false;
        }
        if words::bit(named, slot) {
            return false;
        }
        named = words::set(named, slot);
        rest = words::clear(rest, c);
    }
    named == occupied
}

// Whether the page of this number is sound. `sequences` are its 64 cells.
pub fn page_sound(
    sequences: &[u32],
    words: PageWords,
    n: usize,
    window_size: u32,
    page: usize,
) -> bool
    requires { (length sequences.now ≡ 64) × (window_size ≤ 65536) }
    ensures { DecidesPage n window_size page words sequences.now result }
{
    if words.kind == NONE {
        return words.occupied == 0 && words.filled == 0;
    }
    if DENSE < words.kind {
        return false;
    }
    if words.occupied == 0 {
        return false;
    }
    if words.kind == DENSE && words.filled != words.occupied {
        return false;
    }
    cells_sound(sequences, words, n, window_size, page)
}
