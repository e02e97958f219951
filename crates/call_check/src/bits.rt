// Tests of single words.
ghost use Rattle.std.specs.Prelude.{◌^◌, ◌≤◌, ◌<◌};
ghost use Rattle.page_check.specs.Promises.{Decides};
ghost use Rattle.call_check.specs.Promises.{BitMatches};

// Whether bit k of a word says if `named` is 0.
#[tactic(auto, using(crate::proofs::WordLaws::bit_decides))]
pub fn bit_matches(word: u64, k: usize, named: u64) -> bool
    requires { k < 64 }
    ensures { Decides (BitMatches word k named) result }
{
    words::bit(word, k) == (named != 0)
}

// Whether a word has no bit from n on.
#[tactic(auto, using(crate::proofs::WordLaws::below_power))]
pub fn no_bits_from(word: u64, n: usize) -> bool
    requires { (1 ≤ n) × (n ≤ 64) }
    ensures { Decides (word < 2 ^ n) result }
{
    word <= words::span(0, n)
}
