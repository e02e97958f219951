// The calls that read: get, successor_after, first_from and iter; stranger.rt has stranger. Each takes the header, the lent lists and
// numbers, and gives the header back as it is: its refusals, or else the answer of one inner function.
#![tactic(auto)]

pub mod cells;
pub mod round;
pub mod stranger;

ghost use Rattle.std.specs.Prelude.{Ok};
ghost use Rattle.window.specs.Lent.{lent};
ghost use Rattle.model.specs.Calls.{get as get_of, successor_after, first_from, iter as iter_of, ask};
ghost use Rattle.call_base.specs.Answers.{MeetsBy};
ghost use Rattle.call_base.specs.Promises.{Tells};
ghost use Rattle.call_base.specs.Reading.{state_in};

use call_base::admits::{Arguments, admit_reading};
use call_base::reading::WindowRef;
use call_base::{reachable, read_answer, refuse, reply};
use cells::next_cell;
use page_base::{page_cells, page_words};
use round::find_round;
use window::AdaptiveReceiverPacketWindow;
use window::answers::{Answer, Step};
use window::memory::{PAGE_SLOTS, capacity, position};

// The value of the sequence.
#[tactic(auto, using(crate::proofs::GetLaws::reading))]
pub fn value_of(window: WindowRef, sequence: u32) -> Answer
    ensures { Tells (get_of sequence) (state_in window.entry) (Ok result) }
{
    let n = window.header.n as usize;
    let page = position(window.header.window_size, sequence) / PAGE_SLOTS;
    if !reachable(window.header, window.blocks, page) {
        return Answer::Absent;
    }
    let words = page_words(window.pages, page);
    let read = page_base::find::get(
        page_cells(window.sequences, page),
        page_cells(window.values, page),
        words,
        n,
        sequence,
    );
    read_answer(read)
}

// The value of the sequence.
pub fn get(
    w: AdaptiveReceiverPacketWindow,
    sequences: &[u32],
    values: &[u32],
    pages: &[u64],
    blocks: &[u64],
    sequence: u32,
) -> Step
    ensures { MeetsBy (ask (get_of sequence)) w (lent sequences) (lent values) (lent pages) (lent blocks) result }
{
    match admit_reading(
        w,
        sequences,
        values,
        pages,
        blocks,
        Arguments::Sequence(sequence),
    ) {
        Ok(window) => reply(w, Ok(value_of(window, sequence))),
        Err(why) => refuse(w, why),
    }
}

// The sequence of the first live value after the sequence's position, round to its own, last of all.
// `find_round` is given w, not the window's header, which is the same: through that the header is copied once more.
pub fn successor_after(
    w: AdaptiveReceiverPacketWindow,
    sequences: &[u32],
    values: &[u32],
    pages: &[u64],
    blocks: &[u64],
    sequence: u32,
) -> Step
    ensures { MeetsBy (ask (successor_after sequence)) w (lent sequences) (lent values) (lent pages) (lent blocks) result }
{
    match admit_reading(
        w,
        sequences,
        values,
        pages,
        blocks,
        Arguments::Sequence(sequence),
    ) {
        Ok(window) => reply(
            w,
            find_round(w, window.sequences, window.pages, window.blocks, sequence),
        ),
        Err(why) => refuse(w, why),
    }
}

// The sequence of the first live value from the sequence's own position on, then round.
pub fn first_from(
    w: AdaptiveReceiverPacketWindow,
    sequences: &[u32],
    values: &[u32],
    pages: &[u64],
    blocks: &[u64],
    sequence: u32,
) -> Step
    ensures { MeetsBy (ask (first_from sequence)) w (lent sequences) (lent values) (lent pages) (lent blocks) result }
{
    match admit_reading(
        w,
        sequences,
        values,
        pages,
        blocks,
        Arguments::Sequence(sequence),
    ) {
        Ok(window) => {
            let before = sequence.wrapping_sub(1) % 0x8000_0000;
            reply(
                w,
                find_round(w, window.sequences, window.pages, window.blocks, before),
            )
        }
        Err(why) => refuse(w, why),
    }
}

// The next reachable pair from a cell number on, with the cell after it, or done; and how many retired words were read.
#[tactic(auto, using(crate::proofs::IterLaws::iterating))]
fn next_pair(window: WindowRef, cell: u32) -> Answer
    ensures { Tells (iter_of cell) (state_in window.entry) (Ok result) }
{
    let start = cell as usize;
    let end = capacity(window.header.window_size);
    if end <= start {
        return Answer::Ended(0);
    }
    let next = next_cell(window.header, window.pages, window.blocks, start, end);
    match next.cell {
        Some(cell) => Answer::Pair(
            window.sequences[cell],
            window.values[cell],
            (cell + 1) as u32,
            next.reads,
        ),
        None => Answer::Ended(next.reads),
    }
}

// From a cell number, the next reachable pair in page order, then cell order, with the cell after it, or done; and how many retired
// words of blocks were read.
pub fn iter(
    w: AdaptiveReceiverPacketWindow,
    sequences: &[u32],
    values: &[u32],
    pages: &[u64],
    blocks: &[u64],
    cell: u32,
) -> Step
    ensures { MeetsBy (ask (iter_of cell)) w (lent sequences) (lent values) (lent pages) (lent blocks) result }
{
    match admit_reading(w, sequences, values, pages, blocks, Arguments::Nothing) {
        Ok(window) => reply(w, Ok(next_pair(window, cell))),
        Err(why) => refuse(w, why),
    }
}
