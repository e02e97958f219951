// The first live value after a position, and then round, as an answer.
ghost use Rattle.std.specs.Prelude.{◌≡◌, ◌*◌, ◌<◌, ◌≤◌, length};
ghost use Rattle.window.specs.Memory.{capacity as capacity_of, page_count_of, block_count_of, words_per_page, words_per_block};
ghost use Rattle.call_base.specs.Answers.{answer_of};
ghost use Rattle.call_read.specs.Promises.{FindsRound};

use block_search::walk::find_live;
use call_base::read_answer;
use window::AdaptiveReceiverPacketWindow;
use window::answers::Answer;
use window::memory::{capacity, position};
use window::refusals::Refusal;

// The sequence of the first live value from the position after the sequence's on, then from position 0.
// No `WindowRef`: this is public and asks less than one, nothing of the list of values and less of the header.
pub fn find_round(
    w: AdaptiveReceiverPacketWindow,
    sequences: &[u32],
    pages: &[u64],
    blocks: &[u64],
    sequence: u32,
) -> Result<Answer, Refusal>
    requires window_size_bound { (w.window_size ≤ 65536) × (w.n < 64) }
    requires window_size_in_bounds { (capacity_of w.window_size ≤ length sequences.now)
        × (words_per_page * page_count_of w.window_size ≤ length pages.now)
        × (words_per_block * block_count_of w.window_size ≤ length blocks.now) }
    ensures { FindsRound w sequences.now pages.now blocks.now sequence (answer_of result) }
{
    let end = capacity(w.window_size);
    let start = position(w.window_size, sequence) + 1;
    if end <= start {
        return Ok(read_answer(find_live(w, sequences, pages, blocks, 0, end)?));
    }
    if let Some(found) = find_live(w, sequences, pages, blocks, start, end)? {
        return Ok(Answer::Found(found));
    }
    Ok(read_answer(find_live(w, sequences, pages, blocks, 0, start)?))
}
