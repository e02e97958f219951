// The line program on slices: a part of the input, and the answers of the lines that end in it.
#![tactic(auto)]

pub mod answer;
pub mod notes;

ghost use Rattle.std.specs.Prelude.{◌<◌, ◌≤◌, length};
ghost use Rattle.window.specs.Lent.{left_in, lent_mut, lent};
ghost use Rattle.call_base.specs.Answers.{state_of};
ghost use Rattle.line_program.specs.Promises.{Kept, KeptIn, LineEndsBy, TakesBy, Stops, EndsBy};

use answer::{BLOCK_LIST, PAGE_LIST, answer_line};
use line_text::{append, next_byte};
use notes::{Notes, note};
use window::AdaptiveReceiverPacketWindow;

// What is kept between lines: the header (of zeros before an accepted n), how many bytes of a line have come (one more than its places
// if it is too long), the place in the part of the input after what was taken, the place after the output so far, and the notes.
#[derive(Clone, Copy)]
pub struct Program {
    pub window: AdaptiveReceiverPacketWindow,
    pub length: usize,
    pub from: usize,
    pub at: usize,
    pub notes: Notes,
}

// The end of a line, of which the first `length` bytes stand in `line`: its answer put, and what was wrong with it noted. The program
// goes on at `from`.
fn end_line(
    p: Program,
    line: &[u8; 64],
    length: usize,
    from: usize,
    sequences: &mut [u32; 4096],
    values: &mut [u32; 4096],
    pages: &mut [u64; PAGE_LIST],
    blocks: &mut [u64; BLOCK_LIST],
    returned: &mut [u32; 384],
    listed_sequences: &mut [u32; 4096],
    listed_values: &mut [u32; 4096],
    out: &mut [u8; 262144],
) -> Program
    requires kept_in { KeptIn p.window sequences.old values.old pages.old blocks.old }
    requires at_bound { p.at ≤ 65536 }
    ensures { LineEndsBy p (lent line) length from (lent_mut sequences) (lent_mut values) (lent_mut pages) (lent_mut blocks) (lent_mut out) result }
{
    let window = p.window;
    let notes = p.notes;
    let at = p.at;
    let answered = answer_line(
        window,
        line,
        length,
        sequences,
        values,
        pages,
        blocks,
        returned,
        listed_sequences,
        listed_values,
        out,
        at,
    );
    let after = answered.window;
    Program {
        window: after,
        length: 0,
        from,
        at: answered.at,
        notes: note(notes, line, length, out[at]),
    }
}

// The bytes up to the next line feed, and the answer of the line that ends there; or the rest of the part, which waits.
fn take_line(
    p: Program,
    part: &[u8],
    line: &mut [u8; 64],
    sequences: &mut [u32; 4096],
    values: &mut [u32; 4096],
    pages: &mut [u64; PAGE_LIST],
    blocks: &mut [u64; BLOCK_LIST],
    returned: &mut [u32; 384],
    listed_sequences: &mut [u32; 4096],
    listed_values: &mut [u32; 4096],
    out: &mut [u8; 262144],
) -> Program
    requires kept_in { KeptIn p.window sequences.old values.old pages.old blocks.old }
    requires at_bound { p.at ≤ 65536 }
    requires from_in_bounds { p.from < length part.now }
    ensures from_lt_from { (p.from < result.from) × (result.from ≤ length part.now) }
    ensures takes_by { TakesBy p part.now (lent_mut line) (lent_mut sequences) (lent_mut values) (lent_mut pages) (lent_mut blocks) (lent_mut out) result }
    ensures kept { Kept (state_of result.window (left_in (lent_mut sequences) (lent_mut values) (lent_mut pages) (lent_mut blocks))) }
{
    let from = p.from;
    let to = next_byte(part, from, b'\n');
    let length = append(line, p.length, &part[from..to]);
    if to == part.len() {
        return Program {
            length,
            from: to,
            ..p
        };
    }
    end_line(
        p,
        line,
        length,
        to + 1,
        sequences,
        values,
        pages,
        blocks,
        returned,
        listed_sequences,
        listed_values,
        out,
    )
}

// The lines that end in a part of the input, from `from` on, until more than 65536 bytes wait to be written.
pub fn take_lines(
    p: Program,
    part: &[u8],
    line: &mut [u8; 64],
    sequences: &mut [u32; 4096],
    values: &mut [u32; 4096],
    pages: &mut [u64; PAGE_LIST],
    blocks: &mut [u64; BLOCK_LIST],
    returned: &mut [u32; 384],
    listed_sequences: &mut [u32; 4096],
    listed_values: &mut [u32; 4096],
    out: &mut [u8; 262144],
) -> Program
    requires kept_in { KeptIn p.window sequences.old values.old pages.old blocks.old }
    requires from_in_bounds { p.from ≤ length part.now }
    ensures takes_by { TakesBy p part.now (lent_mut line) (lent_mut sequences) (lent_mut values) (lent_mut pages) (lent_mut blocks) (lent_mut out) result }
    ensures stops { Stops p (length part.now) result }
    ensures kept { Kept (state_of result.window (left_in (lent_mut sequences) (lent_mut values) (lent_mut pages) (lent_mut blocks))) }
{
    let mut program = p;
    while program.from < part.len() {
        if 65536 < program.at {
            break;
        }
        program = take_line(
            program,
            part,
            line,
            sequences,
            values,
            pages,
            blocks,
            returned,
            listed_sequences,
            listed_values,
            out,
        );
    }
    program
}

// The end of the input: the answer of a last line without a line feed.
pub fn take_last(
    p: Program,
    line: &[u8; 64],
    sequences: &mut [u32; 4096],
    values: &mut [u32; 4096],
    pages: &mut [u64; PAGE_LIST],
    blocks: &mut [u64; BLOCK_LIST],
    returned: &mut [u32; 384],
    listed_sequences: &mut [u32; 4096],
    listed_values: &mut [u32; 4096],
    out: &mut [u8; 262144],
) -> Program
    requires kept_in { KeptIn p.window sequences.old values.old pages.old blocks.old }
    requires at_bound { p.at ≤ 65536 }
    ensures { EndsBy p (lent line) (lent_mut sequences) (lent_mut values) (lent_mut pages) (lent_mut blocks) (lent_mut out) result }
{
    if p.length == 0 {
        return p;
    }
    end_line(
        p,
        line,
        p.length,
        p.from,
        sequences,
        values,
        pages,
        blocks,
        returned,
        listed_sequences,
        listed_values,
        out,
    )
}
