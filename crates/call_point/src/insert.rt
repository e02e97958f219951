// insert: the sequence and the value into the window. A retired page is first released whole.
ghost use Rattle.std.specs.Prelude.{◌+◌, ◌*◌, ◌/◌, ◌≤◌, ◌<◌, length};
ghost use Rattle.window.specs.Memory.{words_per_page, words_per_block, RowIn};
ghost use Rattle.window.specs.Lent.{ListsFit, found_in, left_in, lent_mut, lent};
ghost use Rattle.model.specs.Calls.{insert as insert_of};
ghost use Rattle.acknowledge.specs.Promises.{ListsLent};
ghost use Rattle.call_base.specs.Answers.{MeetsInto};
ghost use Rattle.call_base.specs.Promises.{AdmittedInto};
ghost use Rattle.call_point.specs.Promises.{InsertsIn, Keeps, InsertsLive, MakesLive, LiveAnswer, Enters, KeepsInserted};

use crate::is_new;
use acknowledge::after_insert;
use call_base::admits::{Arguments, admits};
use call_base::{reachable, refuse};
use page_base::{PageWords, page_words};
use page_insert::{InsertAnswer, Inserted};
use page_release::{PageReleased, revive};
use page_store::store::store_inserted;
use window::AdaptiveReceiverPacketWindow;
use window::answers::{Answer, Outcome, Step};
use window::memory::{PAGE_SLOTS, position};
use window::refusals::Refusal;

// The header after an insert into a page, and the answer or refusal.
#[derive(Clone, Copy)]
pub struct Put {
    pub window: AdaptiveReceiverPacketWindow,
    pub answer: Result<Answer, Refusal>,
}

// The sequence and the value into page `page`, which has these words. Its cells are cut out here (page_base says why).
fn insert_in_page(
    sequences: &mut [u32],
    values: &mut [u32],
    words: PageWords,
    page: usize,
    n: usize,
    sequence: u32,
    value: u32,
) -> Inserted
    requires { (page < 1024) × (64 * page + 64 ≤ length sequences.old) × (64 * page + 64 ≤ length values.old) × (0 < n) × (n < 64) }
    ensures { InsertsIn page n words sequences.old values.old sequence value result sequences.new values.new }
{
    let from = PAGE_SLOTS * page;
    let to = from + PAGE_SLOTS;
    page_insert::insert(
        &mut sequences[from..to],
        &mut values[from..to],
        words,
        n,
        sequence,
        value,
    )
}

// What an insert into page `page` left, written to the lists.
fn keep(
    w: AdaptiveReceiverPacketWindow,
    pages: &mut [u64],
    blocks: &mut [u64],
    page: usize,
    r: Inserted,
) -> Put
    requires { (page < 1024) × (RowIn words_per_page page pages.old) × (RowIn words_per_block (page / 64) blocks.old) }
    ensures { Keeps w pages.old blocks.old page r result pages.new blocks.new }
{
    let words = r.words;
    match r.answer {
        Ok(InsertAnswer::New) => Put {
            window: store_inserted(w, pages, blocks, page, words, false),
            answer: Ok(Answer::New),
        },
        Ok(InsertAnswer::Promoted) => Put {
            window: store_inserted(w, pages, blocks, page, words, true),
            answer: Ok(Answer::New),
        },
        Ok(InsertAnswer::Replaced(old)) => Put {
            window: w,
            answer: Ok(Answer::Replaced(old)),
        },
        Err(why) => Put {
            window: w,
            answer: Err(why),
        },
    }
}

// The sequence and the value into page `page`, which is live.
fn insert_live(
    w: AdaptiveReceiverPacketWindow,
    sequences: &mut [u32],
    values: &mut [u32],
    pages: &mut [u64],
    blocks: &mut [u64],
    page: usize,
    n: usize,
    sequence: u32,
    value: u32,
) -> Put
    requires page_bound { (page < 1024) × (64 * page + 64 ≤ length sequences.old) × (64 * page + 64 ≤ length values.old) × (RowIn words_per_page page pages.old) }
    requires row_in { (RowIn words_per_block (page / 64) blocks.old) × (0 < n) × (n < 64) }
    ensures { InsertsLive w (found_in (lent_mut sequences) (lent_mut values) (lent_mut pages) (lent_mut blocks)) page n sequence value result (left_in (lent_mut sequences) (lent_mut values) (lent_mut pages) (lent_mut blocks)) }
{
    let words = page_words(pages, page);
    let r = insert_in_page(sequences, values, words, page, n, sequence, value);
    keep(w, pages, blocks, page, r)
}

// Page `page` made live, `reach` being what `reachable` says of it: if it is retired, it is revived.
fn made_live(
    w: AdaptiveReceiverPacketWindow,
    sequences: &[u32],
    values: &[u32],
    pages: &mut [u64],
    blocks: &mut [u64],
    returned: &mut [u32],
    page: usize,
    n: usize,
    reach: bool,
) -> PageReleased
    requires page_bound { (page < 1024) × (64 * page + 64 ≤ length sequences.now) × (64 * page + 64 ≤ length values.now) × (RowIn words_per_page page pages.old) }
    requires row_in { (RowIn words_per_block (page / 64) blocks.old) × (n < 64) × (64 ≤ length returned.old) }
    ensures { MakesLive w n (found_in (lent sequences) (lent values) (lent_mut pages) (lent_mut blocks)) returned.old page reach result (left_in (lent sequences) (lent values) (lent_mut pages) (lent_mut blocks)) returned.new }
{
    if !reach {
        return revive(w, sequences, values, pages, blocks, returned, page, n);
    }
    PageReleased {
        window: w,
        count: 0,
        sound: true,
    }
}

// The answer of an insert into a page that was made live. One that was revived is empty on a sound state: a refusal there means
// that it was not.
fn live_answer(answer: Result<Answer, Refusal>, reach: bool) -> Result<Answer, Refusal>
    ensures { LiveAnswer reach answer result }
{
    match answer {
        Err(_) if !reach => Err(Refusal::Unsound),
        _ => answer,
    }
}

// The sequence and the value into page `page`, which was made live as `live` says.
fn enter(
    live: PageReleased,
    sequences: &mut [u32],
    values: &mut [u32],
    pages: &mut [u64],
    blocks: &mut [u64],
    page: usize,
    n: usize,
    reach: bool,
    sequence: u32,
    value: u32,
) -> Step
    requires page_bound { (page < 1024) × (64 * page + 64 ≤ length sequences.old) × (64 * page + 64 ≤ length values.old) × (RowIn words_per_page page pages.old) }
    requires row_in { (RowIn words_per_block (page / 64) blocks.old) × (0 < n) × (n < 64) × (live.count ≤ 64) }
    ensures { Enters live (found_in (lent_mut sequences) (lent_mut values) (lent_mut pages) (lent_mut blocks)) page n reach sequence value result (left_in (lent_mut sequences) (lent_mut values) (lent_mut pages) (lent_mut blocks)) }
{
    let window = live.window;
    let count = live.count as u32;
    if !live.sound {
        return Step {
            window,
            answer: Outcome {
                answer: Err(Refusal::Unsound),
                count,
            },
        };
    }
    let put = insert_live(
        window, sequences, values, pages, blocks, page, n, sequence, value,
    );
    let given = put.answer;
    Step {
        window: put.window,
        answer: Outcome {
            answer: live_answer(given, reach),
            count,
        },
    }
}

// Once no refusal applies.
fn insert_value(
    w: AdaptiveReceiverPacketWindow,
    sequences: &mut [u32],
    values: &mut [u32],
    pages: &mut [u64],
    blocks: &mut [u64],
    returned: &mut [u32],
    sequence: u32,
    value: u32,
) -> Step
    requires { ListsFit w sequences.old values.old pages.old blocks.old × (384 ≤ length returned.old) }
    ensures { AdmittedInto (insert_of sequence value) w (lent_mut sequences) (lent_mut values) (lent_mut pages) (lent_mut blocks) (lent_mut returned) result }
{
    let n = w.n as usize;
    let page = position(w.window_size, sequence) / PAGE_SLOTS;
    let reach = reachable(w, blocks, page);
    let live = made_live(
        w, sequences, values, pages, blocks, returned, page, n, reach,
    );
    enter(
        live, sequences, values, pages, blocks, page, n, reach, sequence, value,
    )
}

// The point after an insert into the window `w`: a new pair may move it.
fn keep_point(
    w: AdaptiveReceiverPacketWindow,
    step: Step,
    sequences: &[u32],
    pages: &[u64],
    blocks: &[u64],
    sequence: u32,
) -> Step
    requires { ListsLent w sequences.now pages.now blocks.now }
    ensures { KeepsInserted w sequences.now pages.now blocks.now sequence step result }
{
    if is_new(step.answer.answer) {
        return Step {
            window: after_insert(w, step.window, sequences, pages, blocks, sequence),
            answer: step.answer,
        };
    }
    step
}

pub fn insert(
    w: AdaptiveReceiverPacketWindow,
    sequences: &mut [u32],
    values: &mut [u32],
    pages: &mut [u64],
    blocks: &mut [u64],
    returned: &mut [u32],
    sequence: u32,
    value: u32,
) -> Step
    ensures { MeetsInto (insert_of sequence value) w (lent_mut sequences) (lent_mut values) (lent_mut pages) (lent_mut blocks) (lent_mut returned) result }
{
    match admits(
        w,
        sequences.len(),
        values.len(),
        pages.len(),
        blocks.len(),
        returned.len(),
        Arguments::Sequence(sequence),
    ) {
        Ok(()) => {
            let step = insert_value(
                w, sequences, values, pages, blocks, returned, sequence, value,
            );
            keep_point(w, step, sequences, pages, blocks, sequence)
        }
        Err(why) => refuse(w, why),
    }
}
