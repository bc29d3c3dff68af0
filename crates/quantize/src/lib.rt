// Integer conversion (scope paper, "Conversion", with change request K5: to the nearest).
#![tactic(auto)]

ghost use Rattle.std.specs.Prelude.{◌≡◌, ◌≤◌, ◌^◌, nat_abs, ◌-ℤ◌, ◌*ℤ◌};
ghost use Rattle.refusal.specs.Checks.{in_order};
ghost use Rattle.quantize.specs.Quantize.{lowest, highest, quantize_checks, nearest, conversion, quantize_answer};

use refusal::{Answer, Fault, Refusal};

// A converted number: its value, and whether the rounded number lay beyond a limit and was held to it.
#[derive(Clone, Copy)]
pub struct Converted {
    pub value: i16,
    pub held: bool,
}

// The limits of a precision: its least and its greatest value.
fn limits(precision: u32) -> (i64, i64)
    ensures { (result.0 ≡ lowest precision) × (result.1 ≡ highest precision) }
{
    if precision == 0 {
        (-128, 127)
    } else {
        (-32768, 32767)
    }
}

// The difference from the offset, scaled.
fn scaled(d: i32, offset: i16, scale: i16) -> i64
    ensures { (result ≡ (d -ℤ offset) *ℤ scale) × (nat_abs result ≤ 2 ^ 47) }
{
    (d as i64 - offset as i64) * scale as i64
}

// A number over 2^shift to the nearest, halves away from zero. The shift rounds down, also below zero, so half of 2^shift is added first; below zero,
// where a half goes down, one less than the other half.
fn nearest(z: i64, shift: u32) -> i64
    requires { (shift ≤ 31) × (nat_abs z ≤ 2 ^ 47) }
    ensures { result ≡ nearest z (2 ^ shift) }
{
    let whole: u32 = 1 << shift;
    let half = whole / 2;
    let more = if z < 0 { whole - half - 1 } else { half };
    (z + more as i64) >> shift
}

// A number converted: rounded, then saturated to its precision.
fn conversion(d: i32, offset: i16, scale: i16, shift: u32, precision: u32) -> Converted
    requires { shift ≤ 31 }
    ensures { result ≡ conversion d offset scale shift precision }
{
    let z = scaled(d, offset, scale);
    let y = nearest(z, shift);
    let (low, high) = limits(precision);
    Converted {
        value: integers::saturate(y, low, high) as i16,
        held: integers::beyond(y, low, high),
    }
}

// Checks 2, 16 of a conversion to a precision.
pub fn check(shift: u32, precision: u32) -> Answer
    ensures { result ≡ in_order (quantize_checks precision shift) }
{
    if 2 <= precision {
        return Err(Fault(Refusal::Precision, 0));
    }
    if 31 < shift {
        return Err(Fault(Refusal::Shift, 0));
    }
    Ok(())
}

// (d - offset) * scale over 2^shift, to the nearest, halves away from zero, and saturated to the precision.
pub fn convert(
    d: i32,
    offset: i16,
    scale: i16,
    shift: u32,
    precision: u32,
) -> Result<Converted, Fault>
    ensures { result ≡ quantize_answer d offset scale shift precision }
{
    check(shift, precision)?;
    Ok(conversion(d, offset, scale, shift, precision))
}
