// Elements: their bytes, and the values that a precision takes (scope paper, "Cells and cubes"; "Refusal numbers", 7; change request K7, 26).
#![tactic(auto)]

ghost use Rattle.std.specs.Prelude.{◌≡◌, false, ◌&&◌, ℕ, ◌+◌, ◌*◌, ◌/◌, ◌%◌, ◌^◌, ◌<◌, ◌≤◌, ltb, pos, ◌-ℤ◌, length, get_or};
ghost use Rattle.refusal.specs.Checks.{in_order};
ghost use Rattle.elements.specs.Bytes.{element_bytes, byte_of, bit_pattern, signed};
ghost use Rattle.elements.specs.Values.{value_check, value_valid, value_checks, precision_checks};
ghost use Rattle.elements.specs.Steps.{all_valid, low_bits};

use refusal::{Answer, Fault, Refusal};

// Bytes an element, by the precision code: 1 for int8, else 2, also for a number that is no precision's code.
pub fn element_bytes(precision: u32) -> u32
    ensures { result ≡ element_bytes precision }
{
    if precision == 0 { 1 } else { 2 }
}

// The low byte of an element.
pub fn low_byte(x: i16) -> u8
    ensures { result ≡ byte_of x 0 }
{
    x.to_le_bytes()[0]
}

// The high byte of an element.
pub fn high_byte(x: i16) -> u8
    ensures { result ≡ byte_of x 1 }
{
    x.to_le_bytes()[1]
}

// Both bytes of an element as one number, the low byte first.
pub fn word(x: i16) -> u16
    ensures { result ≡ bit_pattern x }
{
    x.cast_unsigned()
}

// The element of one byte.
pub fn from_byte(b: u8) -> i16
    ensures { result ≡ signed 1 b }
{
    i16::from(b.cast_signed())
}

// The element of two bytes, low byte first.
pub fn from_bytes(low: u8, high: u8) -> i16
    ensures { result ≡ signed 2 (low + 256 * high) }
{
    i16::from_le_bytes([low, high])
}

// The bits of an fp16 element below its sign.
fn magnitude(x: i16) -> u16
    ensures { result ≡ bit_pattern x % 32768 }
{
    word(x) % 32768
}

// A number of an element that has no bit above the low ones, 8 for int8 and 15 for fp16, just where the precision takes it: for int8 its bits 128 higher, for fp16 those below
// its sign 1023 higher. int16 takes every element.
fn raised(precision: u32, x: i16) -> u16
    requires { precision ≡ 1 → ⊥ }
    ensures { ltb result (2 ^ low_bits precision) ≡ value_valid precision x }
{
    if precision == 0 {
        return word(x).wrapping_add(128);
    }
    magnitude(x) + 1023
}

// The least number with a bit above the low ones.
fn limit(precision: u32) -> u16
    ensures { result ≡ 2 ^ low_bits precision }
{
    if precision == 0 { 256 } else { 32768 }
}

// The bits of both numbers: no bit above the low ones just where neither has one.
fn either(a: u16, b: u16) -> u16
    ensures { (k : ℕ) → ltb result (2 ^ k) ≡ ltb a (2 ^ k) && ltb b (2 ^ k) }
{
    a | b
}

// Whether a precision takes every element: the bits of all their numbers together. One pass without an early exit.
fn all_valid(precision: u32, elements: &[i16]) -> bool
    requires { precision ≡ 1 → ⊥ }
    ensures { result ≡ all_valid precision elements.now (length elements.now) }
{
    let mut seen: u16 = 0;
    for &x in elements {
        seen = either(seen, raised(precision, x));
    }
    seen < limit(precision)
}

// The index of the first element that a precision does not take, of which there is one.
fn first_refused(precision: u32, elements: &[i16]) -> usize
    requires { (precision ≡ 1 → ⊥) × (all_valid precision elements.now (length elements.now) ≡ false) }
    ensures first { in_order (value_checks precision elements.now) ≡ value_check precision result (get_or elements.now result (pos 0)) }
    ensures fault { value_valid precision (get_or elements.now result (pos 0)) ≡ false }
{
    for (at, &x) in elements.iter().enumerate() {
        if limit(precision) <= raised(precision, x) {
            return at;
        }
    }
    elements.len()
}

// Whether a precision takes every element; a refusal of one has the least index at fault. Checks 2, then 7 or 26.
pub fn check_values(precision: u32, elements: &[i16]) -> Answer
    ensures { result ≡ in_order (precision_checks precision elements.now) }
{
    if 2 < precision {
        return Err(Fault(Refusal::Precision, 0));
    }
    if precision == 1 {
        return Ok(());
    }
    if all_valid(precision, elements) {
        return Ok(());
    }
    let at = first_refused(precision, elements);
    if precision == 0 {
        return Err(Fault(Refusal::Int8Range, at));
    }
    Err(Fault(Refusal::Fp16Nan, at))
}
