// The bits of a 64-bit word: test, set, clear, a span, the lowest set bit from a place on, the number of set bits.
// Bit 0 is the lowest. What each function gives is a definition of specs/Word.antt; the laws on those stand beside it.
#![tactic(auto)]

ghost use Rattle.std.specs.Prelude.{◌≡◌, ◌<◌, ◌≤◌};
ghost use Rattle.words.specs.Word.{is_set, set_bit, clear_bit, span as span_of, lowest as lowest_of, count as count_of};

// Whether bit k of w is set.
pub fn bit(w: u64, k: usize) -> bool
    requires { k < 64 }
    ensures { result ≡ is_set w k }
{
    (w >> k) % 2 == 1
}

// w with bit k set.
pub fn set(w: u64, k: usize) -> u64
    requires { k < 64 }
    ensures { result ≡ set_bit w k }
{
    w | (1 << k)
}

// w with bit k clear.
pub fn clear(w: u64, k: usize) -> u64
    requires { k < 64 }
    ensures { result ≡ clear_bit w k }
{
    w & !(1 << k)
}

// The bits from `from` up to `to`, `to` not among them.
pub fn span(from: usize, to: usize) -> u64
    requires { (from < to) × (to ≤ 64) }
    ensures { result ≡ span_of from to }
{
    (u64::MAX >> (64 - (to - from))) << from
}

// The lowest set bit of w at or above k; 64 if there is none: a number and no Option, as of trailing_zeros, since callers use it as an end.
pub fn lowest(w: u64, k: usize) -> usize
    requires { k < 64 }
    ensures { result ≡ lowest_of w k }
{
    u64::trailing_zeros(w & (u64::MAX << k)) as usize
}

// How many bits of w are set.
pub fn count(w: u64) -> usize
    ensures { result ≡ count_of w }
{
    u64::count_ones(w) as usize
}
