// The acknowledge point: the first sequence from the base that is not live, and how each call keeps it current. run.rt has the live
// sequences of one page.
#![tactic(auto)]

pub mod run;

ghost use Rattle.std.specs.Prelude.{◌≡◌, ◌≤◌, true};
ghost use Rattle.window.specs.Memory.{capacity, position as position_of};
ghost use Rattle.model.specs.Steps.{set_point};
ghost use Rattle.laws_acknowledge.specs.Increments.{after_remove_of, least_covered, after_range_of};
ghost use Rattle.acknowledge.specs.Promises.{with_sizes_of, point_stays_of, advance_from_of, ListsLent, LiveRun, Advances, PointFrom, Inserts, MovesPoint, MovesBase, DecidesCurrent};

use call_base::{distance, reachable, sequence_at};
use page_base::{page_cells, page_words};
use run::page_run;
use window::AdaptiveReceiverPacketWindow;
use window::memory::{PAGE_SLOTS, position};
use window::refusals::is_wire_number;

// The first position from the sequence's own on, in its page, at which the sequence expected there is not live; 64 if all are.
fn live_run(
    w: AdaptiveReceiverPacketWindow,
    sequences: &[u32],
    pages: &[u64],
    blocks: &[u64],
    sequence: u32,
) -> usize
    requires { ListsLent w sequences.now pages.now blocks.now }
    ensures { LiveRun w sequences.now pages.now blocks.now sequence result }
{
    let page = position(w.window_size, sequence) / PAGE_SLOTS;
    let slot = (sequence % 64) as usize;
    if !reachable(w, blocks, page) {
        return slot;
    }
    let words = page_words(pages, page);
    let cells = page_cells(sequences, page);
    page_run(cells, words, w.n as usize, slot, sequence / 64)
}

// The first distance from `from` on whose sequence is not live, page by page; window_size if there is none below it.
fn advance(
    w: AdaptiveReceiverPacketWindow,
    sequences: &[u32],
    pages: &[u64],
    blocks: &[u64],
    base: u32,
    from: u32,
) -> u32
    requires { ListsLent w sequences.now pages.now blocks.now × (from ≤ w.window_size) }
    ensures { Advances w sequences.now pages.now blocks.now base from result }
{
    let size = w.window_size;
    let mut d = from;
    while d < size {
        let sequence = sequence_at(base, d);
        let end = live_run(w, sequences, pages, blocks, sequence) as u32;
        let next = d + (end - sequence % 64);
        if size <= next {
            return size;
        }
        if end < 64 {
            return next;
        }
        d = next;
    }
    size
}

// The point, where the sequences before distance `from` are known to be live.
fn point_from(
    w: AdaptiveReceiverPacketWindow,
    sequences: &[u32],
    pages: &[u64],
    blocks: &[u64],
    base: u32,
    from: u32,
) -> u32
    requires { ListsLent w sequences.now pages.now blocks.now × (from ≤ w.window_size) }
    ensures { PointFrom w sequences.now pages.now blocks.now base from result }
{
    sequence_at(base, advance(w, sequences, pages, blocks, base, from))
}

// The header with another point.
fn with_point(w: AdaptiveReceiverPacketWindow, point: u32) -> AdaptiveReceiverPacketWindow
    ensures { result ≡ set_point w point }
{
    let mut v = w;
    v.point = point;
    v
}

// `v` with window_size, N and demote_at of `w`. No call changes them; so the lists are looked at no further than they were tested,
// whatever a state that is not sound made of them.
fn with_sizes(
    v: AdaptiveReceiverPacketWindow,
    w: AdaptiveReceiverPacketWindow,
) -> AdaptiveReceiverPacketWindow
    ensures { result ≡ with_sizes_of v w }
{
    let mut h = v;
    h.window_size = w.window_size;
    h.n = w.n;
    h.demote_at = w.demote_at;
    h
}

// After an insert that put a new pair into the window `w` and left the header `v`: only at the point does it move.
pub fn after_insert(
    w: AdaptiveReceiverPacketWindow,
    v: AdaptiveReceiverPacketWindow,
    sequences: &[u32],
    pages: &[u64],
    blocks: &[u64],
    sequence: u32,
) -> AdaptiveReceiverPacketWindow
    requires { ListsLent w sequences.now pages.now blocks.now }
    ensures { Inserts (with_sizes_of v w) sequences.now pages.now blocks.now v sequence result }
{
    if sequence != v.point {
        return v;
    }
    let reach = distance(v.base, v.point);
    if w.window_size <= reach {
        return v;
    }
    let sized = with_sizes(v, w);
    with_point(
        v,
        point_from(sized, sequences, pages, blocks, v.base, reach + 1),
    )
}

// After a remove that found its sequence: before the point, it becomes the point.
pub fn after_remove(w: AdaptiveReceiverPacketWindow, sequence: u32) -> AdaptiveReceiverPacketWindow
    ensures { result ≡ set_point w (after_remove_of w.base w.point sequence true) }
{
    if distance(w.base, sequence) < distance(w.base, w.point) {
        return with_point(w, sequence);
    }
    w
}

// How far from the base the first position is that a range of `count` positions from first's covers.
fn first_covered(size: u32, base: u32, first: u32, count: usize) -> u32
    requires { (size ≤ 65536) × (count ≤ capacity size) }
    ensures { result ≡ least_covered (capacity size) (position_of size first) count (position_of size base) }
{
    let past = position(size, base.wrapping_sub(first));
    if past < count {
        return 0;
    }
    position(size, first.wrapping_sub(base)) as u32
}

// After a range was removed from a window of this size: where it covers a position before the point, the first of these becomes the
// point.
pub fn after_range(
    v: AdaptiveReceiverPacketWindow,
    size: u32,
    first: u32,
    count: usize,
) -> AdaptiveReceiverPacketWindow
    requires { (size ≤ 65536) × (count ≤ capacity size) }
    ensures { result ≡ set_point v (after_range_of (capacity size) (position_of size first) count v.base v.point) }
{
    let d = first_covered(size, v.base, first, count);
    if d < distance(v.base, v.point) {
        return with_point(v, sequence_at(v.base, d));
    }
    v
}

// After everything was removed.
pub fn after_clear(w: AdaptiveReceiverPacketWindow) -> AdaptiveReceiverPacketWindow
    ensures { result ≡ set_point w w.base }
{
    with_point(w, w.base)
}

// Whether a point at distance `reach` from its base stays for a base at distance `d`.
fn point_stays(size: u32, reach: u32, d: u32) -> bool
    ensures { result ≡ point_stays_of size reach d }
{
    if reach < d {
        return false;
    }
    reach < size
}

// From which distance on the advance is made if it does not: those before the old limit are live.
fn advance_from(size: u32, reach: u32, d: u32) -> u32
    ensures { result ≡ advance_from_of size reach d }
{
    if reach < d {
        return 0;
    }
    if reach != size {
        return 0;
    }
    size - d
}

// The point for another base, of the window `w` with the header `v`.
fn moved_point(
    w: AdaptiveReceiverPacketWindow,
    v: AdaptiveReceiverPacketWindow,
    sequences: &[u32],
    pages: &[u64],
    blocks: &[u64],
    base: u32,
) -> u32
    requires { ListsLent w sequences.now pages.now blocks.now }
    ensures { MovesPoint (with_sizes_of v w) sequences.now pages.now blocks.now base result }
{
    let size = w.window_size;
    let reach = distance(v.base, v.point);
    let d = distance(v.base, base);
    if point_stays(size, reach, d) {
        return v.point;
    }
    let from = advance_from(size, reach, d);
    point_from(with_sizes(v, w), sequences, pages, blocks, base, from)
}

// The header `v` of the window `w` with another base.
pub fn after_base(
    w: AdaptiveReceiverPacketWindow,
    v: AdaptiveReceiverPacketWindow,
    sequences: &[u32],
    pages: &[u64],
    blocks: &[u64],
    base: u32,
) -> AdaptiveReceiverPacketWindow
    requires { ListsLent w sequences.now pages.now blocks.now }
    ensures { MovesBase (with_sizes_of v w) sequences.now pages.now blocks.now v base result }
{
    let mut h = v;
    h.point = moved_point(w, v, sequences, pages, blocks, base);
    h.base = base;
    h
}

// Whether the base is below 2^31 and the point is the one worked out afresh.
pub fn is_current(
    w: AdaptiveReceiverPacketWindow,
    sequences: &[u32],
    pages: &[u64],
    blocks: &[u64],
) -> bool
    requires { ListsLent w sequences.now pages.now blocks.now }
    ensures { DecidesCurrent w sequences.now pages.now blocks.now result }
{
    if !is_wire_number(w.base) {
        return false;
    }
    w.point == point_from(w, sequences, pages, blocks, w.base, 0)
}
