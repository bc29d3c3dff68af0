// Which settings are valid: each rule, and the checks in their order.
ghost use Rattle.std.specs.Prelude.{◌≡◌, true, ◌+◌, ◌≤◌, pos, negsuc, ◌+ℤ◌, leb};
ghost use Rattle.refusal.specs.Checks.{in_order};
ghost use Rattle.lut.specs.Numbers.{between, scaled};
ghost use Rattle.lut.specs.Rules.{y_select_valid, y_end_valid, shifts_valid, mode_valid, same_z, end_valid, counter_sum, lut_checks, table_checks};

use crate::numbers;
use lut::{Counters, LutSettings, XMode, XSettings, YSettings};
use refusal::{Answer, Fault, Refusal};

// Whether z lies in low..=high.
#[tactic(auto, unfolding(lut::specs::Numbers::between))]
fn between(low: i32, high: i32, z: i32) -> bool
    ensures { result ≡ between low high z }
{
    (low..=high).contains(&z)
}

// Whether the select or the offset of the X table is valid.
fn mode_valid(mode: XMode) -> bool
    ensures { result ≡ mode_valid mode }
{
    match mode {
        XMode::Linear(select) => between(-6, 25, select),
        XMode::Exponential(offset) => between(-32, 31, offset),
    }
}

// n·2^select; for a select below 0 the quotient.
fn scaled(n: u32, select: i32) -> u64
    requires { (n ≤ 256) × (between (negsuc 7) (pos 25) select ≡ true) }
    ensures { result ≡ scaled n select }
{
    (n as u64) << numbers::above_zero(select) >> numbers::below_zero(select)
}

// Whether a linear table with a last entry and a select ends where it must.
fn linear_end(start: i32, end: i32, last: u32, select: i32) -> bool
    requires { (last ≤ 256) × (between (negsuc 7) (pos 25) select ≡ true) }
    ensures { result ≡ same_z end (start +ℤ pos (scaled last select)) }
{
    let n = scaled(last, select);
    let at = start as i64 + n as i64;
    end as i64 == at
}

// Whether the end of the X table is valid.
fn end_valid(s: XSettings) -> bool
    requires { mode_valid s.mode ≡ true }
    ensures { result ≡ end_valid s }
{
    let mode = s.mode;
    let start = s.start;
    let end = s.end;
    match mode {
        XMode::Linear(select) => linear_end(start, end, 64, select),
        XMode::Exponential(offset) => end == 2147483647,
    }
}

// Whether the select of the Y table is valid.
fn select_valid(s: YSettings) -> bool
    ensures { result ≡ y_select_valid s }
{
    let select = s.select;
    between(-8, 23, select)
}

// Whether the end of the Y table is valid.
fn y_end_valid(s: YSettings) -> bool
    requires { y_select_valid s ≡ true }
    ensures { result ≡ y_end_valid s }
{
    let select = s.select;
    let start = s.start;
    let end = s.end;
    linear_end(start, end, 256, select)
}

// Whether the four shifts are valid.
fn shifts_valid(s: LutSettings) -> bool
    ensures { result ≡ shifts_valid s }
{
    let xb = s.x.below.shift;
    let xa = s.x.above.shift;
    let yb = s.y.below.shift;
    let ya = s.y.above.shift;
    between(-16, 15, xb) & between(-16, 15, xa) & between(-16, 15, yb) & between(-16, 15, ya)
}

// Whether the five counters have room for so many samples.
fn counters_valid(c: Counters, samples: usize) -> bool
    ensures { result ≡ leb (counter_sum c + samples) 4294967295 }
{
    if 4294967295 < samples {
        return false;
    }
    let sum = c.x as u64 + c.y as u64 + c.underflow as u64 + c.overflow as u64 + c.priority as u64;
    sum + samples as u64 <= 4294967295
}

// Checks 11, 12, 13, 14, 15.
fn check_tables(s: LutSettings, xs: usize, ys: usize) -> Answer
    ensures { result ≡ in_order (table_checks s xs ys) }
{
    if xs != 65 {
        return Err(Fault(Refusal::TableLength, 0));
    }
    if ys != 257 {
        return Err(Fault(Refusal::TableLength, 0));
    }
    let x = s.x;
    let mode = x.mode;
    if !mode_valid(mode) {
        return Err(Fault(Refusal::XSelect, 0));
    }
    if !end_valid(x) {
        return Err(Fault(Refusal::XEnd, 0));
    }
    if !select_valid(s.y) {
        return Err(Fault(Refusal::YSelect, 0));
    }
    if !y_end_valid(s.y) {
        return Err(Fault(Refusal::YEnd, 0));
    }
    Ok(())
}

// The same, then 16, 18, 17.
pub(crate) fn check(
    s: LutSettings,
    xs: usize,
    ys: usize,
    samples: usize,
    outputs: usize,
    c: Counters,
) -> Answer
    ensures { result ≡ in_order (lut_checks s xs ys samples outputs c) }
{
    check_tables(s, xs, ys)?;
    if !shifts_valid(s) {
        return Err(Fault(Refusal::Shift, 0));
    }
    if outputs != samples {
        return Err(Fault(Refusal::OutputLength, 0));
    }
    if !counters_valid(c, samples) {
        return Err(Fault(Refusal::Counters, 0));
    }
    Ok(())
}
