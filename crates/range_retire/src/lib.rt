// A range of positions retired: values taken out now, into a return list, and whole pages retired by marks. slots.rt has one page,
// span.rt a stretch, range.rt the range.
#![tactic(auto)]

pub mod range;
pub mod slots;
pub mod span;

use window::AdaptiveReceiverPacketWindow;

// The header after values were taken out or retired, how many were put into the return list, and whether each occupied position met
// had a cell. The header and the count are given either way, since what was handed back stays handed back on an unsound state too: so
// `sound` is a field and no Err.
#[derive(Clone, Copy)]
pub struct Retired {
    pub window: AdaptiveReceiverPacketWindow,
    pub count: usize,
    pub sound: bool,
}
