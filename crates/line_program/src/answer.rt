// One line: what it asks for, done and put out.
ghost use Rattle.std.specs.Prelude.{◌≡◌, ◌<◌, ◌≤◌, true, option_map};
ghost use Rattle.window.specs.Lent.{lent, lent_mut};
ghost use Rattle.line_text.specs.Promises.{said_by};
ghost use Rattle.line_calls.specs.Calls.{call_of, called, command_of};
ghost use Rattle.line_program.specs.Program.{unknown_line, new_line, list_line, command_line, said_line};
ghost use Rattle.line_program.specs.Promises.{KeptIn, AnswersBy, gathered};

use line_calls::call;
use line_calls::list::live_pairs;
use line_output::{put_line, put_list, put_unknown};
use line_text::{Fields, parse};
use window::AdaptiveReceiverPacketWindow;
use window::answers::Answer;
use window::memory::{BLOCK_WORDS, PAGE_SLOTS, PAGE_WORDS};

// The words for the 64 pages of a window of 4096, and for their one block.
pub const PAGE_LIST: usize = 4096 / PAGE_SLOTS * PAGE_WORDS;

pub const BLOCK_LIST: usize = BLOCK_WORDS;

// The header after a line, and the place after the output so far.
#[derive(Clone, Copy)]
pub struct Answered {
    pub window: AdaptiveReceiverPacketWindow,
    pub at: usize,
}

// A line that is no call.
fn unknown(
    w: AdaptiveReceiverPacketWindow,
    sequences: &[u32; 4096],
    values: &[u32; 4096],
    pages: &[u64; PAGE_LIST],
    blocks: &[u64; BLOCK_LIST],
    out: &mut [u8; 262144],
    at: usize,
) -> Answered
    requires kept_in { KeptIn w sequences.now values.now pages.now blocks.now }
    requires at_bound { at ≤ 65536 }
    ensures { AnswersBy unknown_line w (lent sequences) (lent values) (lent pages) (lent blocks) (lent_mut out) at result }
{
    Answered {
        window: w,
        at: put_unknown(out, at),
    }
}

// n: a new window, or the refusal with the counts of the window before it, which stays.
fn create(
    w: AdaptiveReceiverPacketWindow,
    sequences: &mut [u32; 4096],
    values: &mut [u32; 4096],
    pages: &mut [u64; PAGE_LIST],
    blocks: &mut [u64; BLOCK_LIST],
    returned: &[u32; 384],
    out: &mut [u8; 262144],
    at: usize,
    f: Fields,
) -> Answered
    requires kept_in { KeptIn w sequences.old values.old pages.old blocks.old }
    requires at_bound { at ≤ 65536 }
    ensures { AnswersBy (λ k. new_line k f.first f.second f.third) w (lent_mut sequences) (lent_mut values) (lent_mut pages) (lent_mut blocks) (lent_mut out) at result }
{
    if 4096 < f.first {
        return unknown(w, sequences, values, pages, blocks, out, at);
    }
    match AdaptiveReceiverPacketWindow::new(
        sequences, values, pages, blocks, f.first, f.second, f.third,
    ) {
        Ok(window) => Answered {
            window,
            at: put_line(out, at, b'n', Ok(Answer::Done), window, returned, 0),
        },
        Err(why) => Answered {
            window: w,
            at: put_line(out, at, b'n', Err(why), w, returned, 0),
        },
    }
}

// l: the live pairs.
fn list(
    w: AdaptiveReceiverPacketWindow,
    sequences: &[u32; 4096],
    values: &[u32; 4096],
    pages: &[u64; PAGE_LIST],
    blocks: &[u64; BLOCK_LIST],
    listed_sequences: &mut [u32; 4096],
    listed_values: &mut [u32; 4096],
    out: &mut [u8; 262144],
    at: usize,
) -> Answered
    requires kept_in { KeptIn w sequences.now values.now pages.now blocks.now }
    requires at_bound { at ≤ 65536 }
    requires window_size_nonzero { 0 < w.window_size }
    ensures { AnswersBy list_line w (lent sequences) (lent values) (lent pages) (lent blocks) (lent_mut out) at result }
{
    let count = live_pairs(
        w,
        sequences,
        values,
        pages,
        blocks,
        listed_sequences,
        listed_values,
    );
    Answered {
        window: w,
        at: put_list(out, at, w, listed_sequences, listed_values, count),
    }
}

// A letter other than n and l, on a window.
fn answer_call(
    w: AdaptiveReceiverPacketWindow,
    sequences: &mut [u32; 4096],
    values: &mut [u32; 4096],
    pages: &mut [u64; PAGE_LIST],
    blocks: &mut [u64; BLOCK_LIST],
    returned: &mut [u32; 384],
    out: &mut [u8; 262144],
    at: usize,
    f: Fields,
) -> Answered
    requires kept_in { KeptIn w sequences.old values.old pages.old blocks.old }
    requires at_bound { at ≤ 65536 }
    requires window_size_nonzero { 0 < w.window_size }
    ensures { AnswersBy (λ k. command_line k f.letter (called (call_of (said_by f) true))) w (lent_mut sequences) (lent_mut values) (lent_mut pages) (lent_mut blocks) (lent_mut out) at result }
{
    let letter = f.letter;
    let Some(step) = call(w, sequences, values, pages, blocks, returned, f) else {
        return unknown(w, sequences, values, pages, blocks, out, at);
    };
    let window = step.window;
    let outcome = step.answer;
    let count = outcome.count as usize;
    Answered {
        window,
        at: put_line(out, at, letter, outcome.answer, window, returned, count),
    }
}

// A call's line. Before an accepted n there is no window, and its header has window_size 0.
fn answer(
    w: AdaptiveReceiverPacketWindow,
    sequences: &mut [u32; 4096],
    values: &mut [u32; 4096],
    pages: &mut [u64; PAGE_LIST],
    blocks: &mut [u64; BLOCK_LIST],
    returned: &mut [u32; 384],
    listed_sequences: &mut [u32; 4096],
    listed_values: &mut [u32; 4096],
    out: &mut [u8; 262144],
    at: usize,
    f: Fields,
) -> Answered
    requires kept_in { KeptIn w sequences.old values.old pages.old blocks.old }
    requires at_bound { at ≤ 65536 }
    ensures { AnswersBy (λ k. command_line k f.letter (command_of (said_by f))) w (lent_mut sequences) (lent_mut values) (lent_mut pages) (lent_mut blocks) (lent_mut out) at result }
{
    if f.letter == b'n' {
        return create(w, sequences, values, pages, blocks, returned, out, at, f);
    }
    if w.window_size == 0 {
        return unknown(w, sequences, values, pages, blocks, out, at);
    }
    if f.letter == b'l' {
        return list(
            w,
            sequences,
            values,
            pages,
            blocks,
            listed_sequences,
            listed_values,
            out,
            at,
        );
    }
    answer_call(w, sequences, values, pages, blocks, returned, out, at, f)
}

// What the first `length` bytes of `line` say; no call if a line had more bytes than it has places.
#[tactic(auto, unfolding(crate::specs::Promises::gathered))]
fn parse_line(line: &[u8], length: usize) -> Option<Fields>
    ensures { option_map said_by result ≡ gathered line.now length }
{
    if line.len() < length {
        return None;
    }
    parse(&line[..length])
}

// The answer of a line that has ended: its first `length` bytes.
pub fn answer_line(
    w: AdaptiveReceiverPacketWindow,
    line: &[u8; 64],
    length: usize,
    sequences: &mut [u32; 4096],
    values: &mut [u32; 4096],
    pages: &mut [u64; PAGE_LIST],
    blocks: &mut [u64; BLOCK_LIST],
    returned: &mut [u32; 384],
    listed_sequences: &mut [u32; 4096],
    listed_values: &mut [u32; 4096],
    out: &mut [u8; 262144],
    at: usize,
) -> Answered
    requires kept_in { KeptIn w sequences.old values.old pages.old blocks.old }
    requires at_bound { at ≤ 65536 }
    ensures { AnswersBy (λ k. said_line k (gathered line.now length)) w (lent_mut sequences) (lent_mut values) (lent_mut pages) (lent_mut blocks) (lent_mut out) at result }
{
    let Some(f) = parse_line(line, length) else {
        return unknown(w, sequences, values, pages, blocks, out, at);
    };
    answer(
        w,
        sequences,
        values,
        pages,
        blocks,
        returned,
        listed_sequences,
        listed_values,
        out,
        at,
        f,
    )
}
