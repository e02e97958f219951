// The first page that holds a value, that is live or that is retired, by the masks: one step for each block that the summary names.
#![tactic(auto)]

pub mod walk;

ghost use Rattle.std.specs.Prelude.{◌≡◌, ◌+◌, ◌*◌, ◌/◌, ◌-◌, ◌≤◌, ◌<◌, length, unwrap_or, IfSome};
ghost use Rattle.words.specs.First.{first_from_of};
ghost use Rattle.window.specs.Memory.{words_per_block, RowIn};
ghost use Rattle.block_search.specs.Search.{bits_within_of, selected_pages_of, is_selected};

use block_marks::block_words;
use block_marks::marks::retired_pages;

// Which of the pages that hold a value a search looks for.
#[derive(Clone, Copy)]
pub enum Select {
    Nonempty,
    Live,
    Retired,
}

// The bits of word `word` of a row of words that are among the bits `start` up to `end` of the row.
pub fn bits_within(start: usize, end: usize, word: usize) -> u64
    requires { (start < end) × (start / 64 ≤ word) × (word ≤ (end - 1) / 64) }
    ensures { result ≡ bits_within_of start end word }
{
    let mut from: usize = 0;
    let mut to: usize = 64;
    if word == start / 64 {
        from = start % 64;
    }
    if word == (end - 1) / 64 {
        to = (end - 1) % 64 + 1;
    }
    words::span(from, to)
}

// The pages of a block that hold a value and are selected.
pub fn selected_pages(blocks: &[u64], retired_blocks: u64, block: usize, select: Select) -> u64
    requires { (block < 16) × RowIn words_per_block block blocks.now }
    ensures { result ≡ selected_pages_of blocks.now retired_blocks block select }
{
    let b = block_words(blocks, block);
    let nonempty = b.nonempty;
    let retired = retired_pages(retired_blocks, b.retired, block);
    match select {
        Select::Nonempty => nonempty,
        Select::Live => nonempty & !retired,
        Select::Retired => nonempty & retired,
    }
}

// The first selected page from `start` up to `end`, if there is one.
pub fn next_page(
    blocks: &[u64],
    nonempty_summary: u64,
    retired_blocks: u64,
    start: usize,
    end: usize,
    select: Select,
) -> Option<usize>
    requires { (start ≤ end) × (end ≤ 1024) × (words_per_block * ((end + 63) / 64) ≤ length blocks.now) }
    ensures first { unwrap_or result end ≡ first_from_of (is_selected blocks.now nonempty_summary retired_blocks select) (end - start) start }
    ensures in_range { IfSome result (λ page. page < end) }
{
    if end <= start {
        return None;
    }
    let first = start / 64;
    let last = (end - 1) / 64;
    let mut summary = nonempty_summary & words::span(first, last + 1);
    while summary != 0 {
        let block = words::lowest(summary, 0);
        let pages = selected_pages(blocks, retired_blocks, block, select)
            & bits_within(start, end, block);
        if pages != 0 {
            return Some(64 * block + words::lowest(pages, 0));
        }
        summary = words::clear(summary, block);
    }
    None
}
