// What a reading call is lent, once refusal 6 does not apply: its header and its lists, as one value.
ghost use Rattle.window.specs.Lent.{ListsFit};

use window::AdaptiveReceiverPacketWindow;

// The header and the lent lists of a call to which refusal 6 does not apply, for reading.
#[derive(Clone, Copy)]
pub struct WindowRef<'a> {
    pub header: AdaptiveReceiverPacketWindow,
    pub sequences: &'a [u32],
    pub values: &'a [u32],
    pub pages: &'a [u64],
    pub blocks: &'a [u64],
    pub ghost fits: { ListsFit header sequences.now values.now pages.now blocks.now },
}
