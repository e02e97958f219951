// The output lines of the line program, put into a buffer of bytes from a place on. Each function gives the place after what it put.
#![tactic(auto)]

ghost use Rattle.std.specs.Prelude.{◌≡◌, ◌+◌, ◌≤◌, length, take, nat_le};
ghost use Rattle.line_text.specs.PrintContracts.{Puts};
ghost use Rattle.call_base.specs.Answers.{answer_of, given_of};
ghost use Rattle.model.specs.Calls.{released};
ghost use Rattle.model.specs.Steps.{demotions_of};
ghost use Rattle.line_output.specs.Output.{answer_bytes, count_bytes, head_bytes, line_bytes, list_bytes, unknown_bytes};
ghost use Rattle.line_output.specs.Promises.{room_for, pairs_room, PutsIf};

use line_text::print::{put_byte, put_marked, put_number, put_pairs, put_values};
use window::AdaptiveReceiverPacketWindow;
use window::answers::Answer;
use window::refusals::Refusal;

// An answer or a refusal: at most 41 bytes.
#[tactic(auto, unfolding(crate::specs::Output::answer_bytes))]
fn put_answer(out: &mut [u8], at: usize, answer: Result<Answer, Refusal>) -> usize
    requires { at + 41 ≤ length out.old }
    ensures { Puts at (answer_bytes (answer_of answer)) out.old result out.new }
{
    match answer {
        Ok(given) => put_given(out, at, given),
        Err(why) => put_marked(out, at, b'!', u64::from(u32::from(why))),
    }
}

// An answer of a call that is not refused.
#[tactic(auto, unfolding(crate::specs::Output::answer_bytes))]
fn put_given(out: &mut [u8], at: usize, answer: Answer) -> usize
    requires { at + 41 ≤ length out.old }
    ensures { Puts at (answer_bytes (given_of answer)) out.old result out.new }
{
    match answer {
        Answer::Done => put_byte(out, at, b'.'),
        Answer::New => put_byte(out, at, b'+'),
        Answer::Replaced(value) => put_marked(out, at, b'=', u64::from(value)),
        Answer::Absent => put_byte(out, at, b'-'),
        Answer::Found(number) => put_number(out, at, u64::from(number)),
        Answer::Pair(sequence, _, _, _) => put_number(out, at, u64::from(sequence)),
        Answer::Ended(_) => put_byte(out, at, b'.'),
        Answer::Released(values, units) => put_released(out, at, values, units),
    }
}

// Values released and units used.
fn put_released(out: &mut [u8], at: usize, values: u32, units: u32) -> usize
    requires { at + 41 ≤ length out.old }
    ensures { Puts at (answer_bytes (released values units)) out.old result out.new }
{
    let colon = put_number(out, at, u64::from(values));
    put_marked(out, colon, b':', u64::from(units))
}

// The demotions of both causes, modulo 2^64.
fn demotions(w: AdaptiveReceiverPacketWindow) -> u64
    ensures { result ≡ demotions_of w }
{
    w.single_demotions.wrapping_add(w.range_demotions)
}

// The counts of the header: at most 84 bytes.
fn put_counts(out: &mut [u8], at: usize, w: AdaptiveReceiverPacketWindow) -> usize
    requires { at + 84 ≤ length out.old }
    ensures { Puts at (count_bytes w) out.old result out.new }
{
    let first = put_marked(out, at, b'\t', u64::from(w.len));
    let second = put_marked(out, first, b'\t', u64::from(w.retired_held));
    let third = put_marked(out, second, b'\t', w.promotions);
    put_marked(out, third, b'\t', demotions(w))
}

// The letter, the answer and the counts: at most 127 bytes.
fn put_head(
    out: &mut [u8],
    at: usize,
    letter: u8,
    answer: Result<Answer, Refusal>,
    w: AdaptiveReceiverPacketWindow,
) -> usize
    requires { at + 127 ≤ length out.old }
    ensures { Puts at (head_bytes letter (answer_of answer) w) out.old result out.new }
{
    let tab = put_byte(out, at, letter);
    let from = put_byte(out, tab, b'\t');
    let counts = put_answer(out, from, answer);
    put_counts(out, counts, w)
}

// Whether `need` bytes have a place in a buffer of `length` bytes from `at` on.
fn has_room(length: usize, at: usize, need: usize) -> bool
    ensures { result ≡ nat_le (at + need) length }
{
    at <= length && need <= length - at
}

// Whether a line with `count` items of a list of `list` has a place: at most 128 bytes, and `each` an item.
#[tactic(auto, unfolding(crate::specs::Promises::room_for))]
fn has_line_room(length: usize, at: usize, list: usize, count: usize, each: usize) -> bool
    requires { each ≤ 64 }
    ensures { result ≡ room_for length at list count each }
{
    count <= 4096 && count <= list && has_room(length, at, 128 + each * count)
}

// The line of a call: the letter, the answer, the counts, and the first `count` values of the return list.
pub fn put_line(
    out: &mut [u8],
    at: usize,
    letter: u8,
    answer: Result<Answer, Refusal>,
    w: AdaptiveReceiverPacketWindow,
    returned: &[u32],
    count: usize,
) -> usize
    ensures { PutsIf (room_for (length out.old) at (length returned.now) count 21) at
        (line_bytes letter (answer_of answer) w (take count returned.now)) out.old result out.new }
{
    if !has_line_room(out.len(), at, returned.len(), count, 21) {
        return at;
    }
    let values = put_head(out, at, letter, answer, w);
    let end = put_values(out, values, returned, count);
    put_byte(out, end, b'\n')
}

// The line of a listing: the letter l, the number of pairs, the counts, and the first `count` pairs.
pub fn put_list(
    out: &mut [u8],
    at: usize,
    w: AdaptiveReceiverPacketWindow,
    sequences: &[u32],
    values: &[u32],
    count: usize,
) -> usize
    ensures { PutsIf (pairs_room (length out.old) at (length sequences.now) (length values.now) count) at
        (list_bytes w (take count sequences.now) (take count values.now)) out.old result out.new }
{
    if !has_line_room(out.len(), at, sequences.len(), count, 42) {
        return at;
    }
    if values.len() < count {
        return at;
    }
    let pairs = put_head(out, at, b'l', Ok(Answer::Found(count as u32)), w);
    let end = put_pairs(out, pairs, sequences, values, count);
    put_byte(out, end, b'\n')
}

// The line for one that is no call.
pub fn put_unknown(out: &mut [u8], at: usize) -> usize
    ensures { PutsIf (nat_le (at + 2) (length out.old)) at unknown_bytes out.old result out.new }
{
    if !has_room(out.len(), at, 2) {
        return at;
    }
    let end = put_byte(out, at, b'?');
    put_byte(out, end, b'\n')
}
