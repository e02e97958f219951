// The words of a block of 64 pages, and the bookkeeping in them and in the header. A caller reads a block's words, has them and the
// header changed by value, and writes them back.
#![tactic(auto)]

pub mod marks;

ghost use Rattle.std.specs.Prelude.{◌≡◌, ◌<◌, true};
ghost use Rattle.window.specs.Memory.{words_per_block, RowIn};
ghost use Rattle.model.specs.Steps.{count_promotion_of, count_demotion_of};
ghost use Rattle.block_marks.specs.Blocks.{block_words_at, with_block_words};
ghost use Rattle.block_marks.specs.Promises.{ChangesHeader, Notes, AddsLive, TakesLive};

use window::memory::BLOCK_WORDS;
use window::{AdaptiveReceiverPacketWindow, Cause};

// nonempty: bit p, page p of the block holds a value. retired: bit p, it is marked retired. live: the block's live values.
#[derive(Clone, Copy)]
pub struct BlockWords {
    pub nonempty: u64,
    pub retired: u64,
    pub live: u64,
}

// The header and the words of one block, after a change.
#[derive(Clone, Copy)]
pub struct Change {
    pub window: AdaptiveReceiverPacketWindow,
    pub block: BlockWords,
}

// The words of one block. (A page's words are read by page_base: over a trait the two would be no plainer than with their names.)
#[tactic(auto, unfolding(crate::specs::Blocks::block_words_at))]
pub fn block_words(blocks: &[u64], block: usize) -> BlockWords
    requires { (block < 16) × RowIn words_per_block block blocks.now }
    ensures { result ≡ block_words_at blocks.now block }
{
    let a = BLOCK_WORDS * block;
    BlockWords {
        nonempty: blocks[a],
        retired: blocks[a + 1],
        live: blocks[a + 2],
    }
}

// The words of one block, written.
pub fn put_block_words(blocks: &mut [u64], block: usize, words: BlockWords)
    requires { (block < 16) × RowIn words_per_block block blocks.old }
    ensures { blocks.new ≡ with_block_words blocks.old block words }
{
    let a = BLOCK_WORDS * block;
    blocks[a] = words.nonempty;
    blocks[a + 1] = words.retired;
    blocks[a + 2] = words.live;
}

// Page `page` holds a value now, or none: its bit in the block's nonempty word, and the block's bit in the summary.
#[tactic(auto, using(crate::proofs::ChangeLaws::noting))]
pub fn note_page(w: AdaptiveReceiverPacketWindow, b: BlockWords, page: usize, holds: bool) -> Change
    requires { page < 1024 }
    ensures { Notes w b page holds result }
{
    let block = page / 64;
    let bit = page % 64;
    let mut window = w;
    let mut words = b;
    if holds {
        words.nonempty = words::set(b.nonempty, bit);
    } else {
        words.nonempty = words::clear(b.nonempty, bit);
    }
    if words.nonempty == 0 {
        window.nonempty_summary = words::clear(w.nonempty_summary, block);
    } else {
        window.nonempty_summary = words::set(w.nonempty_summary, block);
    }
    Change {
        window,
        block: words,
    }
}

// `added` live values more in the block.
pub fn add_live(w: AdaptiveReceiverPacketWindow, b: BlockWords, added: u32) -> Change
    ensures { AddsLive w b added result }
{
    let mut window = w;
    let mut words = b;
    window.len = w.len.wrapping_add(added);
    words.live = b.live.wrapping_add(added as u64);
    Change {
        window,
        block: words,
    }
}

// `removed` live values fewer in the block; no count goes below 0.
pub fn sub_live(w: AdaptiveReceiverPacketWindow, b: BlockWords, removed: u32) -> Change
    ensures { TakesLive w b removed result }
{
    let mut window = w;
    let mut words = b;
    window.len = w.len.saturating_sub(removed);
    words.live = b.live.saturating_sub(removed as u64);
    Change {
        window,
        block: words,
    }
}

// One promotion more, modulo 2^64.
pub fn count_promotion(w: AdaptiveReceiverPacketWindow) -> AdaptiveReceiverPacketWindow
    ensures { ChangesHeader (λ v. count_promotion_of v true) w result }
{
    let mut window = w;
    window.promotions = w.promotions.wrapping_add(1);
    window
}

// One demotion more under its cause, modulo 2^64.
pub fn count_demotion(w: AdaptiveReceiverPacketWindow, cause: Cause) -> AdaptiveReceiverPacketWindow
    ensures { ChangesHeader (λ v. count_demotion_of cause v true) w result }
{
    let mut window = w;
    match cause {
        Cause::Single => {
            window.single_demotions = w.single_demotions.wrapping_add(1);
        }
        Cause::Range => {
            window.range_demotions = w.range_demotions.wrapping_add(1);
        }
    }
    window
}
