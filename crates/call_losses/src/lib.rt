// The loss report (document 02, S-4): write_losses gives the draft's loss list of the sequences of a range that are not live, read_losses
// takes such a list apart. Neither changes the window.
#![tactic(auto)]

ghost use Rattle.std.specs.Prelude.{◌≤◌, length};
ghost use Rattle.window.specs.Lent.{lent, lent_mut};
ghost use Rattle.acknowledge.specs.Promises.{ListsLent};
ghost use Rattle.call_losses.specs.Reports.{WritesLossesBy, ReadsLossesBy};
ghost use Rattle.call_losses.specs.Promises.{seen_list, CountsWords, PutsLosses};

use call_base::admits::{Arguments, NO_LIST, admits};
use call_base::{range_count, refuse, reply};
use loss_list::read::{is_loss_list, put_flags};
use loss_list::{most_words, put_run, run_count};
use loss_stretch::next_stretch;
use window::AdaptiveReceiverPacketWindow;
use window::answers::{Answer, Step};
use window::refusals::Refusal;

// How many words the list of the `count` sequences from `first` on has.
#[tactic(auto, using(crate::proofs::LoopRules::counting))]
fn count_words(
    w: AdaptiveReceiverPacketWindow,
    sequences: &[u32],
    pages: &[u64],
    blocks: &[u64],
    first: u32,
    count: u32,
) -> usize
    requires { ListsLent w sequences.now pages.now blocks.now × (count ≤ w.window_size) }
    ensures { CountsWords w sequences.now pages.now blocks.now first count result }
{
    let mut d: u32 = 0;
    let mut mask: u64 = 0;
    let mut run: u32 = 0;
    let mut total: usize = 0;
    // The step is a stretch, not one: no range or iterator says it more plainly than this.
    while d < count {
        let s = next_stretch(w, sequences, pages, blocks, first, count, d, mask);
        if s.lost {
            run += s.length;
        } else {
            total += run_count(run);
            run = 0;
        }
        mask = s.mask;
        d += s.length;
    }
    total + run_count(run)
}

// The list of the `count` sequences from `first` on, into a list that has the places for it; how many words it has.
#[tactic(auto, using(crate::proofs::LoopRules::writing))]
fn put_losses(
    w: AdaptiveReceiverPacketWindow,
    sequences: &[u32],
    pages: &[u64],
    blocks: &[u64],
    words: &mut [u32],
    first: u32,
    count: u32,
) -> usize
    requires { ListsLent w sequences.now pages.now blocks.now × (count ≤ w.window_size)
        × (length (seen_list w sequences.now pages.now blocks.now first count) ≤ length words.old) }
    ensures { PutsLosses w sequences.now pages.now blocks.now first count words.old result words.new }
{
    let mut d: u32 = 0;
    let mut mask: u64 = 0;
    let mut start: u32 = 0;
    let mut run: u32 = 0;
    let mut at: usize = 0;
    // The step is a stretch, not one: no range or iterator says it more plainly than this.
    while d < count {
        let s = next_stretch(w, sequences, pages, blocks, first, count, d, mask);
        mask = s.mask;
        d += s.length;
        if s.lost {
            run += s.length;
        } else {
            at = put_run(words, at, first, start, run);
            run = 0;
            start = d;
        }
    }
    put_run(words, at, first, start, run)
}

// The draft's loss list of the sequences of first..last that are not live; how many words it has.
pub fn write_losses(
    w: AdaptiveReceiverPacketWindow,
    sequences: &[u32],
    values: &[u32],
    pages: &[u64],
    blocks: &[u64],
    words: &mut [u32],
    first: u32,
    last: u32,
) -> Step
    ensures { WritesLossesBy first last w (lent sequences) (lent values) (lent pages) (lent blocks) (lent_mut words) result }
{
    if let Err(why) = admits(
        w,
        sequences.len(),
        values.len(),
        pages.len(),
        blocks.len(),
        NO_LIST,
        Arguments::Range(first, last),
    ) {
        return refuse(w, why);
    }
    let count = range_count(first, last);
    if words.len() < most_words(count) {
        if words.len() < count_words(w, sequences, pages, blocks, first, count) {
            return refuse(w, Refusal::ShortList);
        }
    }
    let n = put_losses(w, sequences, pages, blocks, words, first, count);
    reply(w, Ok(Answer::Found(n as u32)))
}

// The losses of first..last that a loss list names, a byte for each sequence; how many they are. Only a list of write_losses is taken.
pub fn read_losses(
    w: AdaptiveReceiverPacketWindow,
    sequences: &[u32],
    values: &[u32],
    pages: &[u64],
    blocks: &[u64],
    words: &[u32],
    lost: &mut [u8],
    first: u32,
    last: u32,
) -> Step
    ensures { ReadsLossesBy first last w (lent sequences) (lent values) (lent pages) (lent blocks) (lent words) (lent_mut lost) result }
{
    if let Err(why) = admits(
        w,
        sequences.len(),
        values.len(),
        pages.len(),
        blocks.len(),
        NO_LIST,
        Arguments::Range(first, last),
    ) {
        return refuse(w, why);
    }
    let count = range_count(first, last);
    if lost.len() < count as usize {
        return refuse(w, Refusal::ShortList);
    }
    if !is_loss_list(words, first, count) {
        return refuse(w, Refusal::LossList);
    }
    let n = put_flags(lost, words, first, count);
    reply(w, Ok(Answer::Found(n)))
}
