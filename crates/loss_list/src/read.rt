// A loss list read word by word: which sequences it names, and whether it is the list that the writer has for them. Only then are bytes
// written.
ghost use Rattle.std.specs.Prelude.{◌≡◌, true, ◌≤◌, ◌<◌, ◌^◌, length};
ghost use Rattle.model.specs.Losses.{is_loss_list_of};
ghost use Rattle.laws_losses.specs.Marks.{single, opens, mark_of};
ghost use Rattle.laws_losses.specs.Reading.{turn as turn_of, least_gap_of};
ghost use Rattle.loss_list.specs.Promises.{phase_of, turned_by, PutsFlags};

use call_base::distance;
use window::refusals::is_wire_number;

// What stands before the next distance that no word has decided: nothing that is lost; a run of one word; a longer run; or at that
// distance the first word of a run whose second has not come.
#[derive(Clone, Copy, PartialEq, Eq)]
pub enum Phase {
    Clear,
    Alone,
    Ended,
    Opened,
}

// What a word says from there on: so many sequences that are not lost, then so many that are, and the phase after them. None where no list
// has the word there.
#[derive(Clone, Copy)]
pub struct Turn {
    pub gap: u32,
    pub lost: u32,
    pub phase: Phase,
}

impl Turn {
    fn new(gap: u32, lost: u32, phase: Phase) -> Turn
        ensures { (result.gap ≡ gap) × (result.lost ≡ lost) × (result.phase ≡ phase) }
    {
        Turn { gap, lost, phase }
    }
}

// How many sequences must not be lost before the next run: runs do not touch.
fn least_gap(phase: Phase) -> u32
    ensures { result ≡ least_gap_of (phase_of phase) }
{
    match phase {
        Phase::Clear | Phase::Opened => 0,
        Phase::Alone | Phase::Ended => 1,
    }
}

// A word without its top bit, at distance `d`: the second of a run, one that makes a run of one a run of two, or a run of its own.
fn single_turn(count: u32, at: u32, phase: Phase, d: u32) -> Option<Turn>
    requires { (count ≤ 65536) × (at ≤ count) }
    ensures { turned_by at result ≡ turn_of count at (phase_of phase) (single d) }
{
    if count <= d {
        return None;
    }
    if phase == Phase::Opened {
        if d < at + 2 {
            return None;
        }
        return Some(Turn::new(0, d + 1 - at, Phase::Ended));
    }
    if phase == Phase::Alone && d == at {
        return Some(Turn::new(0, 1, Phase::Ended));
    }
    if d < at + least_gap(phase) {
        return None;
    }
    Some(Turn::new(d - at, 1, Phase::Alone))
}

// A word with its top bit, at distance `d`: the first of a run of three or more.
fn opened_turn(count: u32, at: u32, phase: Phase, d: u32) -> Option<Turn>
    requires { (count ≤ 65536) × (at ≤ count) }
    ensures { turned_by at result ≡ turn_of count at (phase_of phase) (opens d) }
{
    if count <= d || phase == Phase::Opened {
        return None;
    }
    if d < at + least_gap(phase) {
        return None;
    }
    Some(Turn::new(d - at, 0, Phase::Opened))
}

// A word met at distance `at`, in a range of `count` sequences from `first` on.
fn word_turn(first: u32, count: u32, at: u32, phase: Phase, word: u32) -> Option<Turn>
    requires { (count ≤ 65536) × (at ≤ count) }
    ensures { turned_by at result ≡ turn_of count at (phase_of phase) (mark_of first word) }
{
    let d = distance(first, word);
    if is_wire_number(word) {
        return single_turn(count, at, phase, d);
    }
    opened_turn(count, at, phase, d)
}

// Whether the list is that of some set of losses among the `count` sequences from `first` on.
pub fn is_loss_list(words: &[u32], first: u32, count: u32) -> bool
    requires { (first < 2 ^ 31) × (count ≤ 65536) }
    ensures { result ≡ is_loss_list_of first count words.now }
{
    let mut at: u32 = 0;
    let mut phase = Phase::Clear;
    for &word in words {
        let Some(turn) = word_turn(first, count, at, phase, word) else {
            return false;
        };
        at += turn.gap + turn.lost;
        phase = turn.phase;
    }
    phase != Phase::Opened
}

// One byte for each of the `count` sequences: 1 if the list names it, 0 if not. How many it names.
pub fn put_flags(bytes: &mut [u8], words: &[u32], first: u32, count: u32) -> u32
    requires { (first < 2 ^ 31) × (count ≤ 65536) × (count ≤ length bytes.old) × (is_loss_list_of first count words.now ≡ true) }
    ensures { PutsFlags first count words.now bytes.old result bytes.new }
{
    let mut at: u32 = 0;
    let mut phase = Phase::Clear;
    let mut total: u32 = 0;
    for &word in words {
        let Some(turn) = word_turn(first, count, at, phase, word) else {
            return total;
        };
        let kept = at + turn.gap;
        let end = kept + turn.lost;
        bytes[at as usize..kept as usize].fill(0);
        bytes[kept as usize..end as usize].fill(1);
        at = end;
        phase = turn.phase;
        total += turn.lost;
    }
    bytes[at as usize..count as usize].fill(0);
    total
}
