// The bookkeeping for one page that an insert, a removal or a release changed: in the header and in the words of its block, by value.
// store.rt writes it, with the page's words, into the lent lists.
#![tactic(auto)]

pub mod store;

ghost use Rattle.std.specs.Prelude.{◌≡◌, ◌-◌, ◌<◌};
ghost use Rattle.model.specs.Steps.{set_held};
ghost use Rattle.page_store.specs.Promises.{Inserted, Removed, Released};

use block_marks::marks::{settle_retired, unmark_page};
use block_marks::{
    BlockWords, Change, add_live, count_demotion, count_promotion, note_page, sub_live,
};
use page_base::Left;
use window::{AdaptiveReceiverPacketWindow, Cause};

// Page `page` got a new live value, and became dense or not.
pub fn inserted(
    w: AdaptiveReceiverPacketWindow,
    b: BlockWords,
    page: usize,
    promoted: bool,
) -> Change
    requires { page < 1024 }
    ensures { Inserted w b page promoted result }
{
    let noted = note_page(w, b, page, true);
    let window = noted.window;
    let block = noted.block;
    if promoted {
        return add_live(count_promotion(window), block, 1);
    }
    add_live(window, block, 1)
}

// Page `page` lost `count` live values, and this was left of it; a demotion is counted under the cause.
pub fn removed(
    w: AdaptiveReceiverPacketWindow,
    b: BlockWords,
    page: usize,
    left: Left,
    cause: Cause,
    count: u32,
) -> Change
    requires { page < 1024 }
    ensures { Removed w b page left cause count result }
{
    let fewer = sub_live(w, b, count);
    let noted = note_page(fewer.window, fewer.block, page, left.values != 0);
    let window = noted.window;
    let block = noted.block;
    if left.demoted {
        return Change {
            window: count_demotion(window, cause),
            block,
        };
    }
    Change { window, block }
}

// `count` retired values fewer held; no count goes below 0.
fn fewer_held(w: AdaptiveReceiverPacketWindow, count: u32) -> AdaptiveReceiverPacketWindow
    ensures { result ≡ set_held w (w.retired_held - count) }
{
    let mut window = w;
    window.retired_held = w.retired_held.saturating_sub(count);
    window
}

// Page `page`, which is retired, lost `count` values and holds another or not; an emptied page loses its mark.
pub fn released(
    w: AdaptiveReceiverPacketWindow,
    b: BlockWords,
    page: usize,
    holds: bool,
    count: u32,
) -> Change
    requires { page < 1024 }
    ensures { Released w b page holds count result }
{
    let noted = note_page(fewer_held(w, count), b, page, holds);
    if holds {
        return noted;
    }
    let window = settle_retired(noted.window);
    let block = unmark_page(noted.block, page % 64);
    Change { window, block }
}
