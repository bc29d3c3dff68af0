// General laws for the crates above: tests, whole numbers, casts, ranges, loops (proofs/Lib.antt); and the lesser of two numbers.
#![tactic(auto)]

ghost use Rattle.std.specs.Prelude.{◌≡◌, min};

// The lesser of two numbers, in one place for the three crates that call it.
pub fn least(a: u32, b: u32) -> u32
    ensures { result ≡ min a b }
{
    a.min(b)
}
