// The call check, which says whether a state is sound: every page (page.rt), every block (block.rt) and the header (header.rt), then
// base and point. It writes nothing.
#![tactic(auto)]

pub mod bits;
pub mod block;
pub mod header;
pub mod page;
pub mod values;

ghost use Rattle.std.specs.Prelude.{◌≤◌, length};
ghost use Rattle.window.specs.Memory.{capacity};
ghost use Rattle.window.specs.Lent.{found_in, ListsFit, lent};
ghost use Rattle.window.specs.Refusals.{Within};
ghost use Rattle.model.specs.Calls.{check as check_of, ask};
ghost use Rattle.call_base.specs.Answers.{state_of, MeetsBy};
ghost use Rattle.call_check.specs.Promises.{WordsLent, DecidesSound, Checks};

use acknowledge::is_current;
use block::blocks_sound;
use call_base::admits::{Arguments, NO_LIST, admits};
use call_base::{refuse, reply};
use header::header_sound;
use page::pages_sound;
use window::AdaptiveReceiverPacketWindow;
use window::answers::{Answer, Step};
use window::refusals::Refusal;

// Whether the state is sound, base and point aside, by a fixed number of passes over the pages. The values are not looked at.
#[tactic(auto, using(crate::proofs::StateLaws::whole))]
fn sound(w: AdaptiveReceiverPacketWindow, sequences: &[u32], pages: &[u64], blocks: &[u64]) -> bool
    requires within { Within w.window_size w.n w.demote_at × (capacity w.window_size ≤ length sequences.now) }
    requires words_lent { WordsLent w.window_size pages.now blocks.now }
    ensures { DecidesSound w sequences.now pages.now blocks.now result }
{
    if !header_sound(w, pages, blocks) {
        return false;
    }
    if !blocks_sound(w, pages, blocks) {
        return false;
    }
    pages_sound(w, sequences, pages, blocks)
}

// The answer of check.
#[tactic(auto, using(crate::proofs::StateLaws::answers))]
fn checked(
    w: AdaptiveReceiverPacketWindow,
    sequences: &[u32],
    values: &[u32],
    pages: &[u64],
    blocks: &[u64],
) -> Result<Answer, Refusal>
    requires { ListsFit w sequences.now values.now pages.now blocks.now }
    ensures { Checks (state_of w (found_in (lent sequences) (lent values) (lent pages) (lent blocks))) result }
{
    if !sound(w, sequences, pages, blocks) {
        return Err(Refusal::Unsound);
    }
    if !is_current(w, sequences, pages, blocks) {
        return Err(Refusal::Unsound);
    }
    Ok(Answer::Done)
}

// Done for a sound state, refusal 7 for any other.
pub fn check(
    w: AdaptiveReceiverPacketWindow,
    sequences: &[u32],
    values: &[u32],
    pages: &[u64],
    blocks: &[u64],
) -> Step
    ensures { MeetsBy (ask check_of) w (lent sequences) (lent values) (lent pages) (lent blocks) result }
{
    if let Err(why) = admits(
        w,
        sequences.len(),
        values.len(),
        pages.len(),
        blocks.len(),
        NO_LIST,
        Arguments::Nothing,
    ) {
        return refuse(w, why);
    }
    reply(w, checked(w, sequences, values, pages, blocks))
}
