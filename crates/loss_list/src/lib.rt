// The draft's loss list (document 02, S-4), by distances from the first sequence of its range: the words of a run of lost sequences.
// read.rt has the reading of a list.
#![tactic(auto)]

pub mod read;

ghost use Rattle.std.specs.Prelude.{◌≡◌, ◌+◌, ◌≤◌, ◌^◌, ◌<◌, length as length_of};
ghost use Rattle.std.proofs.lemmas.List.Edits.{sets};
ghost use Rattle.model.specs.Losses.{run_words, most_words_of};
ghost use Rattle.laws_losses.specs.Loops.{run_count_of, first_word};

use call_base::sequence_at;

// The most words that a list for `count` sequences has.
pub fn most_words(count: u32) -> usize
    ensures { result ≡ most_words_of count }
{
    (count - count / 3) as usize
}

// How many words a run of `length` lost sequences has.
pub fn run_count(length: u32) -> usize
    ensures { result ≡ run_count_of length }
{
    length.min(2) as usize
}

// The first word of a run: its sequence, with its top bit set if the run has three or more.
fn first_word(first: u32, start: u32, length: u32) -> u32
    ensures { result ≡ first_word first start length }
{
    let sequence = sequence_at(first, start);
    if length < 3 {
        return sequence;
    }
    0x8000_0000 + sequence
}

// The words of a run from place `at` of the list on; the place after them.
pub fn put_run(words: &mut [u32], at: usize, first: u32, start: u32, length: u32) -> usize
    requires { (start + length < 2 ^ 32) × (at + run_count_of length ≤ length_of words.old) }
    ensures value { result ≡ at + run_count_of length }
    ensures words_after { words.new ≡ sets words.old at (run_words first start length) }
{
    if length == 0 {
        return at;
    }
    words[at] = first_word(first, start, length);
    if length == 1 {
        return at + 1;
    }
    words[at + 1] = sequence_at(first, start + (length - 1));
    at + 2
}
