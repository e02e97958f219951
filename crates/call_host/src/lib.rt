// The host forms of insert, remove and release_retired: the caller's header is lent and updated in place. Each hands a copy of it to
// the call by value and writes the header back that the call gives.
#![tactic(auto)]

ghost use Rattle.window.specs.Lent.{lent, lent_mut};
ghost use Rattle.model.specs.Calls.{insert as insert_of, remove as remove_of, release_retired};
ghost use Rattle.call_host.specs.Lent.{HostMeetsBy, HostMeetsInto};

use window::AdaptiveReceiverPacketWindow;
use window::answers::Outcome;

pub fn insert(
    w: &mut AdaptiveReceiverPacketWindow,
    sequences: &mut [u32],
    values: &mut [u32],
    pages: &mut [u64],
    blocks: &mut [u64],
    returned: &mut [u32],
    sequence: u32,
    value: u32,
) -> Outcome
    ensures { HostMeetsInto (insert_of sequence value) w (lent_mut sequences) (lent_mut values) (lent_mut pages) (lent_mut blocks) (lent_mut returned) result }
{
    let inserted = call_point::insert::insert(
        *w, sequences, values, pages, blocks, returned, sequence, value,
    );
    *w = inserted.window;
    inserted.answer
}

pub fn remove(
    w: &mut AdaptiveReceiverPacketWindow,
    sequences: &mut [u32],
    values: &mut [u32],
    pages: &mut [u64],
    blocks: &mut [u64],
    sequence: u32,
) -> Outcome
    ensures { HostMeetsBy (remove_of sequence) w (lent_mut sequences) (lent_mut values) (lent_mut pages) (lent_mut blocks) result }
{
    let removed = call_point::remove::remove(*w, sequences, values, pages, blocks, sequence);
    *w = removed.window;
    removed.answer
}

pub fn release_retired(
    w: &mut AdaptiveReceiverPacketWindow,
    sequences: &[u32],
    values: &[u32],
    pages: &mut [u64],
    blocks: &mut [u64],
    returned: &mut [u32],
    budget: u32,
) -> Outcome
    ensures { HostMeetsInto (release_retired budget) w (lent sequences) (lent values) (lent_mut pages) (lent_mut blocks) (lent_mut returned) result }
{
    let released = call_retire::release_retired::release_retired(
        *w, sequences, values, pages, blocks, returned, budget,
    );
    *w = released.window;
    released.answer
}
