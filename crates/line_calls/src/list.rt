// The listing of live pairs.
ghost use Rattle.window.specs.Lent.{lent, lent_mut};
ghost use Rattle.line_calls.specs.List.{ListsBy};

use call_read::iter;
use window::AdaptiveReceiverPacketWindow;
use window::answers::Answer;

// l: the live pairs, in the order of iter from 0 until done, into two lists: how many they are. No more than either list has places for.
pub fn live_pairs(
    w: AdaptiveReceiverPacketWindow,
    sequences: &[u32],
    values: &[u32],
    pages: &[u64],
    blocks: &[u64],
    listed_sequences: &mut [u32],
    listed_values: &mut [u32],
) -> usize
    ensures { ListsBy w (lent sequences) (lent values) (lent pages) (lent blocks) (lent_mut listed_sequences) (lent_mut listed_values) result }
{
    let places = listed_sequences.len().min(listed_values.len());
    let mut cell: u32 = 0;
    for count in 0..places {
        let step = iter(w, sequences, values, pages, blocks, cell);
        let Ok(given) = step.answer.answer else {
            return count;
        };
        let Answer::Pair(sequence, value, next, _) = given else {
            return count;
        };
        listed_sequences[count] = sequence;
        listed_values[count] = value;
        cell = next;
    }
    places
}
