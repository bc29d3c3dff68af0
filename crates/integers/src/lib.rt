// Whole numbers: saturation, and the laws behind signed arithmetic.
#![tactic(auto)]

ghost use Rattle.std.specs.Prelude.{◌≡◌};
ghost use Rattle.integers.specs.Saturate.{saturate, beyond};

// `z` where it lies in `low..=high`, else the limit that it passed. Not `clamp`, which wants low <= high: this promises an answer at any limits. No `min` behind the first test: tried, and
// LLVM compiles it wrongly where the answer is cast to an i32.
#[tactic(auto, unfolding(crate::specs::Saturate::saturate))]
pub fn saturate(z: i64, low: i64, high: i64) -> i64
    ensures { result ≡ saturate low high z }
{
    if z < low {
        return low;
    }
    if high < z {
        return high;
    }
    z
}

// `z` lies beyond a limit: it is not in `low..=high`.
#[tactic(auto, unfolding(crate::specs::Saturate::beyond))]
pub fn beyond(z: i64, low: i64, high: i64) -> bool
    ensures { result ≡ beyond low high z }
{
    !(low..=high).contains(&z)
}
