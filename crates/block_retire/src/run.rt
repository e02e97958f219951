// A run of whole pages retired: in one block; or in several, of which those covered entirely get one mark each.
ghost use Rattle.std.specs.Prelude.{◌+◌, ◌*◌, ◌/◌, ◌<◌, ◌≤◌, length};
ghost use Rattle.window.specs.Memory.{words_per_page, words_per_block, RowIn};
ghost use Rattle.block_retire.specs.Promises.{RetiresFirst, RetiresLast, RetiresBetween, RetiresPages};

use crate::{retire_blocks, retire_pages_in_block};
use window::AdaptiveReceiverPacketWindow;

// The pages from `from` up to the end of its block, unless they are the whole block. (No one function with retire_last: each has a
// condition, a mask and a definition of its own.)
fn retire_first(
    w: AdaptiveReceiverPacketWindow,
    pages: &[u64],
    blocks: &mut [u64],
    from: usize,
) -> AdaptiveReceiverPacketWindow
    requires { (from < 1024) × (words_per_page * (64 * (from / 64) + 64) ≤ length pages.now) × RowIn words_per_block (from / 64) blocks.old }
    ensures { RetiresFirst w pages.now blocks.old from result blocks.new }
{
    if from % 64 == 0 {
        return w;
    }
    retire_pages_in_block(w, pages, blocks, from / 64, words::span(from % 64, 64))
}

// The pages of the block of `to` below it, unless there are none.
fn retire_last(
    w: AdaptiveReceiverPacketWindow,
    pages: &[u64],
    blocks: &mut [u64],
    to: usize,
) -> AdaptiveReceiverPacketWindow
    requires { (to ≤ 1024) × (words_per_page * to ≤ length pages.now) × (words_per_block * ((to + 63) / 64) ≤ length blocks.old) }
    ensures { RetiresLast w pages.now blocks.old to result blocks.new }
{
    if to % 64 == 0 {
        return w;
    }
    retire_pages_in_block(w, pages, blocks, to / 64, words::span(0, to % 64))
}

// The blocks that the pages from `from` up to `to` cover entirely.
fn retire_between(
    w: AdaptiveReceiverPacketWindow,
    blocks: &mut [u64],
    from: usize,
    to: usize,
) -> AdaptiveReceiverPacketWindow
    requires { (from ≤ 1024) × (to ≤ 1024) × (words_per_block * (to / 64) ≤ length blocks.old) }
    ensures { RetiresBetween w blocks.old from to result blocks.new }
{
    let first = (from + 63) / 64;
    let end = to / 64;
    if end <= first {
        return w;
    }
    retire_blocks(w, blocks, words::span(first, end))
}

// Pages of several blocks: the first block, the last, and then those between.
fn retire_several(
    w: AdaptiveReceiverPacketWindow,
    pages: &[u64],
    blocks: &mut [u64],
    from: usize,
    to: usize,
) -> AdaptiveReceiverPacketWindow
    requires { (64 * (from / 64) + 64 < to) × (to ≤ 1024) × (words_per_page * to ≤ length pages.now) × (words_per_block * ((to + 63) / 64) ≤ length blocks.old) }
    ensures { RetiresPages w pages.now blocks.old from to result blocks.new }
{
    let begun = retire_first(w, pages, blocks, from);
    let ended = retire_last(begun, pages, blocks, to);
    retire_between(ended, blocks, from, to)
}

// The whole pages from `from` up to `to`.
pub fn retire_pages(
    w: AdaptiveReceiverPacketWindow,
    pages: &[u64],
    blocks: &mut [u64],
    from: usize,
    to: usize,
) -> AdaptiveReceiverPacketWindow
    requires { (to ≤ 1024) × (words_per_page * to ≤ length pages.now) × (words_per_block * ((to + 63) / 64) ≤ length blocks.old) }
    ensures { RetiresPages w pages.now blocks.old from to result blocks.new }
{
    if to <= from {
        return w;
    }
    let block = from / 64;
    if block == (to - 1) / 64 {
        let mask = words::span(from % 64, (to - 1) % 64 + 1);
        return retire_pages_in_block(w, pages, blocks, block, mask);
    }
    retire_several(w, pages, blocks, from, to)
}
