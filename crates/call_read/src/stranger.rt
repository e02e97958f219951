// stranger: a live pair at a position of a range whose sequence is none of the range's.
ghost use Rattle.std.specs.Prelude.{Ok, ◌≡◌, ◌<◌, ◌≤◌};
ghost use Rattle.std.proofs.Math.Option.{some};
ghost use Rattle.window.specs.Memory.{capacity as capacity_of};
ghost use Rattle.window.specs.Lent.{lent};
ghost use Rattle.model.specs.Calls.{stranger as stranger_of, ask};
ghost use Rattle.model.specs.Table.{pair_of, range_count_of, is_stranger_of};
ghost use Rattle.call_base.specs.Answers.{answer_of, MeetsBy};
ghost use Rattle.call_base.specs.Promises.{Tells};
ghost use Rattle.call_base.specs.Reading.{state_in};
ghost use Rattle.call_read.specs.Promises.{FindsStranger, FindsInRange, GivesPair, GivesFound};

use crate::value_of;
use block_search::walk::find_live;
use call_base::admits::{Arguments, admit_reading};
use call_base::reading::WindowRef;
use call_base::{distance, range_count, refuse, reply};
use window::AdaptiveReceiverPacketWindow;
use window::answers::{Answer, Step};
use window::memory::{capacity, position};
use window::refusals::Refusal;

// Whether a sequence is none of the `count` from `first` on: its distance from first is count or more.
fn is_stranger(first: u32, count: u32, sequence: u32) -> bool
    ensures { result ≡ is_stranger_of first count (some (pair_of sequence 0)) }
{
    count <= distance(first, sequence)
}

// The sequence of the first stranger at the positions from `start` up to `end`.
fn find_stranger(
    window: &WindowRef,
    start: usize,
    end: usize,
    first: u32,
    count: u32,
) -> Result<Option<u32>, Refusal>
    requires { (start < end) × (end ≤ capacity_of window.now.header.window_size) }
    ensures { FindsStranger window.entry.now.header window.entry.now.sequences.now window.entry.now.pages.now
        window.entry.now.blocks.now start end first count result }
{
    let mut from = start;
    while from < end {
        let Some(sequence) = find_live(
            window.header,
            window.sequences,
            window.pages,
            window.blocks,
            from,
            end,
        )?
        else {
            return Ok(None);
        };
        if is_stranger(first, count, sequence) {
            return Ok(Some(sequence));
        }
        let at = position(window.header.window_size, sequence);
        if at < from || end <= at {
            return Err(Refusal::Unsound);
        }
        from = at + 1;
    }
    Ok(None)
}

// The sequence of the first stranger at `count` positions in a row from first's: up to the capacity, and then from 0.
#[tactic(auto, using(crate::proofs::RangeStrangerLaws::ranging))]
fn find_in_range(window: &WindowRef, first: u32, count: u32) -> Result<Option<u32>, Refusal>
    requires { (0 < count) × (count ≤ capacity_of window.now.header.window_size) }
    ensures { FindsInRange window.entry.now.header window.entry.now.sequences.now window.entry.now.pages.now
        window.entry.now.blocks.now first count result }
{
    let end = capacity(window.header.window_size);
    let start = position(window.header.window_size, first);
    let to = start + count as usize;
    if to <= end {
        return find_stranger(window, start, to, first, count);
    }
    if let Some(found) = find_stranger(window, start, end, first, count)? {
        return Ok(Some(found));
    }
    find_stranger(window, 0, to - end, first, count)
}

// The pair of a sequence that a search found.
#[tactic(auto, using(crate::proofs::StrangerAnswerLaws::answering))]
fn pair_answer(window: WindowRef, sequence: u32) -> Result<Answer, Refusal>
    ensures { GivesPair window.entry.header (state_in window.entry).memory sequence (answer_of result) }
{
    match value_of(window, sequence) {
        Answer::Found(value) => Ok(Answer::Pair(sequence, value, 0, 0)),
        _ => Err(Refusal::Unsound),
    }
}

// The answer for what a search found: the pair, or none.
#[tactic(auto, using(crate::proofs::StrangerAnswerLaws::answering))]
fn stranger_answer(window: WindowRef, found: Option<u32>) -> Result<Answer, Refusal>
    ensures { GivesFound window.entry.header (state_in window.entry).memory (Ok found) (answer_of result) }
{
    match found {
        Some(sequence) => pair_answer(window, sequence),
        None => Ok(Answer::Absent),
    }
}

// The first stranger of a range that is not refused.
#[tactic(auto, using(crate::proofs::StrangerAnswerLaws::answering))]
fn first_stranger(window: WindowRef, first: u32, last: u32) -> Result<Answer, Refusal>
    requires { range_count_of first last ≤ window.header.window_size }
    ensures { Tells (stranger_of first last) (state_in window.entry) result }
{
    let count = range_count(first, last);
    let found = find_in_range(&window, first, count)?;
    stranger_answer(window, found)
}

// Some live pair at a position of first..last whose sequence is none of theirs: the first by position from first's, round the capacity.
pub fn stranger(
    w: AdaptiveReceiverPacketWindow,
    sequences: &[u32],
    values: &[u32],
    pages: &[u64],
    blocks: &[u64],
    first: u32,
    last: u32,
) -> Step
    ensures { MeetsBy (ask (stranger_of first last)) w (lent sequences) (lent values) (lent pages) (lent blocks) result }
{
    match admit_reading(
        w,
        sequences,
        values,
        pages,
        blocks,
        Arguments::Range(first, last),
    ) {
        Ok(window) => reply(w, first_stranger(window, first, last)),
        Err(why) => refuse(w, why),
    }
}
