// Powers of two and signs, as the rules and the rows take them.
ghost use Rattle.std.specs.Prelude.{◌≡◌, ◌^◌, ◌≤◌, nat_abs};
ghost use Rattle.general.proofs.UpDown.{up, dn};
ghost use Rattle.lut.specs.Numbers.{log_below};

// z, or 0 where z is below 0.
pub(crate) fn above_zero(z: i32) -> u32
    ensures { result ≡ up z }
{
    z.max(0) as u32
}

// -z, or 0 where z is above 0.
pub(crate) fn below_zero(z: i32) -> u32
    requires { nat_abs z ≤ 32 }
    ensures { result ≡ dn z }
{
    above_zero(0 - z)
}

// 2^k.
pub(crate) fn power(k: u32) -> u32
    requires { k ≤ 31 }
    ensures { result ≡ 2 ^ k }
{
    1u32 << k
}

// floor(log2 q), or 0 for 0.
pub(crate) fn log2(q: u32) -> u32
    ensures { result ≡ log_below 32 q }
{
    31 - u32::leading_zeros(q | 1)
}
