// remove: the value of the sequence taken out of the window.
ghost use Rattle.std.specs.Prelude.{◌+◌, ◌*◌, ◌/◌, ◌≤◌, ◌<◌, length};
ghost use Rattle.window.specs.Memory.{words_per_page, words_per_block, RowIn};
ghost use Rattle.window.specs.Lent.{ListsFit, lent_mut};
ghost use Rattle.model.specs.Calls.{remove as remove_of};
ghost use Rattle.call_base.specs.Answers.{MeetsBy};
ghost use Rattle.call_base.specs.Promises.{AdmittedBy};
ghost use Rattle.call_point.specs.Promises.{RemovesIn, KeepsRemoved, KeepsTaken};

use crate::is_found;
use acknowledge::after_remove;
use call_base::admits::{Arguments, NO_LIST, admits};
use call_base::{reachable, refuse, reply};
use page_base::{Left, PageWords, page_words};
use page_remove::Removed;
use page_store::store::store_removed;
use window::answers::{Answer, Step};
use window::memory::{PAGE_SLOTS, position};
use window::{AdaptiveReceiverPacketWindow, Cause};

// The value of the sequence taken out of page `page`, which has these words. Its cells are cut out here (page_base says why).
fn remove_in_page(
    sequences: &mut [u32],
    values: &mut [u32],
    words: PageWords,
    page: usize,
    n: usize,
    demote_at: usize,
    sequence: u32,
) -> Removed
    requires { (page < 1024) × (64 * page + 64 ≤ length sequences.old) × (64 * page + 64 ≤ length values.old) × (n < 64) }
    ensures { RemovesIn page n words sequences.old values.old demote_at sequence result sequences.new values.new }
{
    let from = PAGE_SLOTS * page;
    let to = from + PAGE_SLOTS;
    page_remove::remove(
        &mut sequences[from..to],
        &mut values[from..to],
        words,
        n,
        demote_at,
        sequence,
    )
}

// What a removal from page `page` left, written to the lists if it took a value out.
fn keep_removed(
    w: AdaptiveReceiverPacketWindow,
    pages: &mut [u64],
    blocks: &mut [u64],
    page: usize,
    words: PageWords,
    left: Left,
    read: Option<u32>,
) -> Step
    requires { (page < 1024) × (RowIn words_per_page page pages.old) × (RowIn words_per_block (page / 64) blocks.old) }
    ensures { KeepsRemoved w pages.old blocks.old page words left read result pages.new blocks.new }
{
    match read {
        Some(value) => {
            let window = store_removed(w, pages, blocks, page, words, left, Cause::Single, 1);
            reply(window, Ok(Answer::Found(value)))
        }
        None => reply(w, Ok(Answer::Absent)),
    }
}

// Once no refusal applies. Values of a retired page are not found.
pub fn remove_value(
    w: AdaptiveReceiverPacketWindow,
    sequences: &mut [u32],
    values: &mut [u32],
    pages: &mut [u64],
    blocks: &mut [u64],
    sequence: u32,
) -> Step
    requires { ListsFit w sequences.old values.old pages.old blocks.old }
    ensures { AdmittedBy (remove_of sequence) w (lent_mut sequences) (lent_mut values) (lent_mut pages) (lent_mut blocks) result }
{
    let n = w.n as usize;
    let demote_at = w.demote_at as usize;
    let page = position(w.window_size, sequence) / PAGE_SLOTS;
    if !reachable(w, blocks, page) {
        return reply(w, Ok(Answer::Absent));
    }
    let words = page_words(pages, page);
    let r = remove_in_page(sequences, values, words, page, n, demote_at, sequence);
    let kept = r.words;
    let left = r.left;
    let read = r.answer;
    keep_removed(w, pages, blocks, page, kept, left, read)
}

// The point after a remove: a sequence that was found may move it.
fn keep_point(step: Step, sequence: u32) -> Step
    ensures { KeepsTaken sequence step result }
{
    if is_found(step.answer.answer) {
        return Step {
            window: after_remove(step.window, sequence),
            answer: step.answer,
        };
    }
    step
}

pub fn remove(
    w: AdaptiveReceiverPacketWindow,
    sequences: &mut [u32],
    values: &mut [u32],
    pages: &mut [u64],
    blocks: &mut [u64],
    sequence: u32,
) -> Step
    ensures { MeetsBy (remove_of sequence) w (lent_mut sequences) (lent_mut values) (lent_mut pages) (lent_mut blocks) result }
{
    match admits(
        w,
        sequences.len(),
        values.len(),
        pages.len(),
        blocks.len(),
        NO_LIST,
        Arguments::Sequence(sequence),
    ) {
        Ok(()) => {
            let step = remove_value(w, sequences, values, pages, blocks, sequence);
            keep_point(step, sequence)
        }
        Err(why) => refuse(w, why),
    }
}
