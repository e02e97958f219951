// What a call answers, and what it gives back.
use crate::AdaptiveReceiverPacketWindow;
use crate::refusals::Refusal;

// The answers of documents 01 and 02, for every call that is not refused. Pair: a sequence, its value, the cell after it and the reads
// of retired words. Ended: done, with these reads. Released: values and units.
#[derive(Clone, Copy)]
pub enum Answer {
    Done,
    New,
    Replaced(u32),
    Absent,
    Found(u32),
    Pair(u32, u32, u32, u32),
    Ended(u32),
    Released(u32, u32),
}

// An answer or a refusal, and how many values the call put into its return list.
#[derive(Clone, Copy)]
pub struct Outcome {
    pub answer: Result<Answer, Refusal>,
    pub count: u32,
}

// The header after a call, and the call's outcome.
#[derive(Clone, Copy)]
pub struct Step {
    pub window: AdaptiveReceiverPacketWindow,
    pub answer: Outcome,
}
