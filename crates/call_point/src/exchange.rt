// exchange: the value of the sequence, and another put in its place.
ghost use Rattle.std.specs.Prelude.{◌+◌, ◌*◌, ◌≤◌, ◌<◌, length};
ghost use Rattle.window.specs.Lent.{ListsFit, lent, lent_mut};
ghost use Rattle.model.specs.Calls.{exchange as exchange_of};
ghost use Rattle.call_base.specs.Answers.{MeetsBy};
ghost use Rattle.call_base.specs.Promises.{AdmittedBy};
ghost use Rattle.call_point.specs.Promises.{ExchangesIn};

use call_base::admits::{Arguments, NO_LIST, admits};
use call_base::{reachable, read_answer, refuse, reply};
use page_base::{PageWords, page_cells, page_words};
use window::AdaptiveReceiverPacketWindow;
use window::answers::{Answer, Step};
use window::memory::{PAGE_SLOTS, position};

// The value of the sequence in page `page`, which has these words, and another put in its place. The page's values are cut out here
// (page_base says why).
fn exchange_in_page(
    sequences: &[u32],
    values: &mut [u32],
    words: PageWords,
    page: usize,
    n: usize,
    sequence: u32,
    value: u32,
) -> Option<u32>
    requires { (page < 1024) × (64 * page + 64 ≤ length sequences.now) × (64 * page + 64 ≤ length values.old) × (n < 64) }
    ensures { ExchangesIn page n words sequences.now values.old sequence value result values.new }
{
    let cells = page_cells(sequences, page);
    let from = PAGE_SLOTS * page;
    let to = from + PAGE_SLOTS;
    page_base::find::exchange(cells, &mut values[from..to], words, n, sequence, value)
}

// Once no refusal applies. Values of a retired page are not found.
fn exchange_value(
    w: AdaptiveReceiverPacketWindow,
    sequences: &[u32],
    values: &mut [u32],
    pages: &[u64],
    blocks: &[u64],
    sequence: u32,
    value: u32,
) -> Step
    requires { ListsFit w sequences.now values.old pages.now blocks.now }
    ensures { AdmittedBy (exchange_of sequence value) w (lent sequences) (lent_mut values) (lent pages) (lent blocks) result }
{
    let n = w.n as usize;
    let page = position(w.window_size, sequence) / PAGE_SLOTS;
    if !reachable(w, blocks, page) {
        return reply(w, Ok(Answer::Absent));
    }
    let words = page_words(pages, page);
    let read = exchange_in_page(sequences, values, words, page, n, sequence, value);
    reply(w, Ok(read_answer(read)))
}

pub fn exchange(
    w: AdaptiveReceiverPacketWindow,
    sequences: &[u32],
    values: &mut [u32],
    pages: &[u64],
    blocks: &[u64],
    sequence: u32,
    value: u32,
) -> Step
    ensures { MeetsBy (exchange_of sequence value) w (lent sequences) (lent_mut values) (lent pages) (lent blocks) result }
{
    match admits(
        w,
        sequences.len(),
        values.len(),
        pages.len(),
        blocks.len(),
        NO_LIST,
        Arguments::Sequence(sequence),
    ) {
        Ok(()) => { exchange_value(w, sequences, values, pages, blocks, sequence, value) }
        Err(why) => refuse(w, why),
    }
}
