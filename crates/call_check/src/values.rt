// The values that pages hold, live or retired.
ghost use Rattle.std.specs.Prelude.{◌≡◌, ◌+◌, ◌*◌, ◌/◌, ◌≤◌, ◌<◌, length};
ghost use Rattle.window.specs.Memory.{words_per_page, words_per_block, RowIn};
ghost use Rattle.call_check.specs.Clauses.{values_where_of, values_at_of};

use block_marks::marks::page_retired;
use page_base::page_words;

// The values of one page, if it is retired (1) or live (0), as `retired` says; else 0.
#[tactic(auto, using(crate::proofs::ValueLaws::marks))]
fn values_at(pages: &[u64], blocks: &[u64], retired_blocks: u64, page: usize, retired: u64) -> usize
    requires { (page < 1024) × RowIn words_per_page page pages.now × RowIn words_per_block (page / 64) blocks.now }
    ensures { result ≡ values_at_of pages.now blocks.now retired_blocks retired page }
{
    if u64::from(page_retired(blocks, retired_blocks, page)) != retired {
        return 0;
    }
    let words = page_words(pages, page);
    words::count(words.occupied)
}

// How many values the `n` pages from `from` on hold, of those that are retired (1) or live (0), as `retired` says; else 0.
// `retired` is a number, since a bool would ask more of callers than the contract that it had, which says what each number gives.
#[tactic(auto, using(crate::proofs::ValueLaws::counting))]
pub fn values_where(
    pages: &[u64],
    blocks: &[u64],
    retired_blocks: u64,
    from: usize,
    n: usize,
    retired: u64,
) -> usize
    requires { (from + n ≤ 1024) × (words_per_page * (from + n) ≤ length pages.now)
        × (words_per_block * ((from + n + 63) / 64) ≤ length blocks.now) }
    ensures { result ≡ values_where_of pages.now blocks.now retired_blocks retired from n }
{
    let mut values: usize = 0;
    for i in 0..n {
        values += values_at(pages, blocks, retired_blocks, from + i, retired);
    }
    values
}
