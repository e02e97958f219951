// The call that a line makes, by its letter and fields; list.rt has l. (A match on the letter, which is the file's format: a table of
// functions would be searched for the same letters.)
#![tactic(auto)]

pub mod list;

ghost use Rattle.window.specs.Lent.{lent_mut};
ghost use Rattle.line_text.specs.Promises.{said_by};
ghost use Rattle.line_calls.specs.Calls.{range_call_of, base_call_of, call_of, MadeBy};

use call_point::exchange::exchange;
use call_point::insert::insert;
use call_point::remove::remove;
use call_point::set_base::set_base;
use call_point::take_front::take_front;
use call_read::stranger::stranger;
use call_read::{first_from, get, successor_after};
use call_retire::clear::clear;
use call_retire::clear_bounded::clear_bounded;
use call_retire::release_retired::release_retired;
use call_retire::remove_range::remove_range;
use line_text::Fields;
use window::AdaptiveReceiverPacketWindow;
use window::answers::Step;

// d, b, v and c: the calls that remove a range, clear and release. None for a letter that has no call.
pub fn range_call(
    w: AdaptiveReceiverPacketWindow,
    sequences: &mut [u32],
    values: &mut [u32],
    pages: &mut [u64],
    blocks: &mut [u64],
    returned: &mut [u32],
    f: Fields,
) -> Option<Step>
    ensures { MadeBy (range_call_of (said_by f)) w (lent_mut sequences) (lent_mut values) (lent_mut pages) (lent_mut blocks) (lent_mut returned) result }
{
    let first = f.first;
    let second = f.second;
    let letter = f.letter;
    match letter {
        b'd' => Some(remove_range(w, sequences, values, pages, blocks, returned, first, second)),
        b'b' => Some(clear_bounded(w, sequences, values, pages, blocks, returned, first)),
        b'v' => Some(release_retired(w, sequences, values, pages, blocks, returned, first)),
        b'c' => Some(clear(w, sequences, values, pages, blocks, returned)),
        _ => None,
    }
}

// a and t: the calls that move the base; then those.
pub fn base_call(
    w: AdaptiveReceiverPacketWindow,
    sequences: &mut [u32],
    values: &mut [u32],
    pages: &mut [u64],
    blocks: &mut [u64],
    returned: &mut [u32],
    f: Fields,
) -> Option<Step>
    ensures { MadeBy (base_call_of (said_by f)) w (lent_mut sequences) (lent_mut values) (lent_mut pages) (lent_mut blocks) (lent_mut returned) result }
{
    let first = f.first;
    let letter = f.letter;
    match letter {
        b'a' => Some(set_base(w, sequences, values, pages, blocks, first)),
        b't' => Some(take_front(w, sequences, values, pages, blocks)),
        _ => range_call(w, sequences, values, pages, blocks, returned, f),
    }
}

// The call of a letter other than n and l.
pub fn call(
    w: AdaptiveReceiverPacketWindow,
    sequences: &mut [u32],
    values: &mut [u32],
    pages: &mut [u64],
    blocks: &mut [u64],
    returned: &mut [u32],
    f: Fields,
) -> Option<Step>
    ensures { MadeBy (call_of (said_by f)) w (lent_mut sequences) (lent_mut values) (lent_mut pages) (lent_mut blocks) (lent_mut returned) result }
{
    let first = f.first;
    let second = f.second;
    let letter = f.letter;
    match letter {
        b'i' => Some(insert(w, sequences, values, pages, blocks, returned, first, second)),
        b'g' => Some(get(w, sequences, values, pages, blocks, first)),
        b'r' => Some(remove(w, sequences, values, pages, blocks, first)),
        b's' => Some(successor_after(w, sequences, values, pages, blocks, first)),
        b'f' => Some(first_from(w, sequences, values, pages, blocks, first)),
        b'e' => Some(exchange(w, sequences, values, pages, blocks, first, second)),
        b'q' => Some(stranger(w, sequences, values, pages, blocks, first, second)),
        _ => base_call(w, sequences, values, pages, blocks, returned, f),
    }
}
