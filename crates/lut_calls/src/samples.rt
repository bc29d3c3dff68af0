// The samples: the row of each, its answer, and the counters.
ghost use Rattle.std.specs.Prelude.{◌≡◌, true, cond, [], map, ◌+◌, ◌^◌, ◌≤◌, ◌<◌, nat_abs, ◌-ℤ◌, ◌*ℤ◌, length};
ghost use Rattle.lut.specs.Samples.{sample_answer, counted};
ghost use Rattle.lut.specs.Rules.{mode_valid, counter_sum};
ghost use Rattle.lut.specs.Steps.{x_valid, y_valid};
ghost use Rattle.lut_calls.specs.StepsRows.{on_line, row_answer, row_power, Inside, Powered};
ghost use Rattle.lut_calls.specs.StepsLoop.{side_of, pair_of, first_x, bounds_of, SettingsFit, wide_of, pair_answer, Tally, All_ready, Ranged, summed, Roomy};

use crate::{Bounds, Row, Span, numbers, points, rows};
use lut::{Counters, LutSettings, XMode, XSettings};

// A sample's distance from an origin, in steps of a size.
fn far(x: i32, origin: i32, size: i64) -> i64
    requires { nat_abs ((x -ℤ origin) *ℤ size) ≤ 4294967295 }
    ensures { result ≡ (x -ℤ origin) *ℤ size }
{
    (x as i64 - origin as i64) * size
}

// At f of 2^shift steps on the line from a first number that rises by so much, held to 32 bits.
fn on_line(first: i16, rise: i32, f: i64, shift: u32) -> i32
    requires { (shift ≤ 31) × (nat_abs f ≤ 4294967295) }
    ensures { result ≡ on_line first rise f (2 ^ shift) }
{
    integers::saturate(
        first as i64 + ((rise as i64 * f) >> shift),
        -2147483648,
        2147483647,
    ) as i32
}

// What a row answers to a sample; p is the power of 2 at or below the distance where the row is exponential, else 0.
fn value(r: Row, firsts: &[i16; 324], rises: &[i32; 324], p: u32, x: i32) -> i32
    requires { Inside r p x }
    ensures { result ≡ row_answer r firsts.now rises.now p x }
{
    let d = far(x, r.origin, r.size);
    let shift = r.shift + p;
    let steps = (d * r.on) as u64 >> shift;
    let at = r.base + p as usize + steps as usize;
    let first = firsts[at];
    let rise = rises[at];
    on_line(first, rise, d - (steps << shift) as i64, shift)
}

// The number of a sample's side: 0 below, 1 hit, 2 above.
fn side(s: Span, x: i32) -> usize
    ensures { result ≡ side_of s x }
{
    let first = s.first;
    let last = s.last;
    (first <= x as i64) as usize + (last < x as i64) as usize
}

// The number of a sample's pair of sides.
fn pair(b: Bounds, x: i32) -> usize
    ensures { result ≡ pair_of b x }
{
    3 * side(b.x, x) + side(b.y, x)
}

// The power of 2 at or below a sample's distance where rows can be exponential and this one is, else 0.
fn power_of(wide: bool, r: Row, x: i32) -> u32
    requires { Powered r x }
    ensures { result ≡ row_power wide r x }
{
    if wide {
        return numbers::log2(far(x, r.origin, r.wide) as u32);
    }
    0
}

// Answers every sample, and counts the samples of each pair of sides.
fn each(
    rows: [Row; 9],
    b: Bounds,
    firsts: &[i16; 324],
    rises: &[i32; 324],
    wide: bool,
    samples: &[i32],
    outputs: &mut [i32],
    seen: &mut [u32; 9],
)
    requires all_ready { All_ready rows b wide }
    requires outputs_len { (length outputs.old ≡ length samples.now) × (length samples.now ≤ 4294967295) × (length seen.old ≡ 9) × Tally (pair_of b) [] seen.old }
    ensures answered { outputs.new ≡ map (pair_answer rows b firsts.now rises.now wide) samples.now }
    ensures tallied { Tally (pair_of b) samples.now seen.new }
    ensures ranged { Ranged samples.now }
{
    for (i, &x) in samples.iter().enumerate() {
        let k = pair(b, x);
        let r = rows[k];
        outputs[i] = value(r, firsts, rises, power_of(wide, r, x), x);
        seen[k] = seen[k] + 1;
    }
}

// The same, one loop for linear tables and one for exponential ones. No const parameter: tried, its value in the proofs goes by a name of the prover's own (WIDE-type).
fn all(
    rows: [Row; 9],
    b: Bounds,
    firsts: &[i16; 324],
    rises: &[i32; 324],
    wide: bool,
    samples: &[i32],
    outputs: &mut [i32],
    seen: &mut [u32; 9],
)
    requires all_ready { All_ready rows b wide }
    requires outputs_len { (length outputs.old ≡ length samples.now) × (length samples.now ≤ 4294967295) × (length seen.old ≡ 9) × Tally (pair_of b) [] seen.old }
    ensures answered { outputs.new ≡ map (pair_answer rows b firsts.now rises.now wide) samples.now }
    ensures tallied { Tally (pair_of b) samples.now seen.new }
    ensures ranged { Ranged samples.now }
{
    if wide {
        each(rows, b, firsts, rises, true, samples, outputs, seen);
    } else {
        each(rows, b, firsts, rises, false, samples, outputs, seen);
    }
}

// The counters after the samples of each pair of sides.
fn tallied(c: Counters, seen: [u32; 9]) -> Counters
    requires { Roomy c seen }
    ensures { result ≡ summed c seen }
{
    Counters {
        x: c.x + seen[3] + seen[5],
        y: c.y + seen[1] + seen[7],
        underflow: c.underflow + seen[0],
        overflow: c.overflow + seen[8],
        priority: c.priority + seen[2] + seen[4] + seen[6],
    }
}

// The first sample that is not below X.
fn first_x(s: XSettings) -> i64
    requires { mode_valid s.mode ≡ true }
    ensures { result ≡ first_x s }
{
    let start = s.start;
    let mode = s.mode;
    match mode {
        XMode::Linear(select) => start as i64,
        XMode::Exponential(offset) => start as i64
            + numbers::power(numbers::above_zero(offset)) as i64,
    }
}

// Where each table begins and ends.
fn bounds_of(s: LutSettings) -> Bounds
    requires { mode_valid s.x.mode ≡ true }
    ensures { (result ≡ bounds_of s) × SettingsFit s }
{
    let x_first = first_x(s.x);
    let x_last = s.x.end;
    let y_first = s.y.start;
    let y_last = s.y.end;
    Bounds {
        x: Span {
            first: x_first,
            last: x_last as i64,
        },
        y: Span {
            first: y_first as i64,
            last: y_last as i64,
        },
    }
}

// Whether rows can be exponential.
fn wide_of(mode: XMode) -> bool
    ensures { result ≡ wide_of mode }
{
    match mode {
        XMode::Linear(select) => false,
        XMode::Exponential(offset) => true,
    }
}

// Answers every sample; hands back the counters after them.
pub(crate) fn answer_all(
    s: LutSettings,
    xs: &[i16],
    ys: &[i16],
    samples: &[i32],
    outputs: &mut [i32],
    c: Counters,
) -> Counters
    requires in_bounds { (64 < length xs.now) × (256 < length ys.now) × (x_valid s.x ≡ true) × (y_valid s.y ≡ true) }
    requires outputs_len { (length outputs.old ≡ length samples.now) × (counter_sum c + length samples.now ≤ 4294967295) }
    ensures answered { outputs.new ≡ map (sample_answer s xs.now ys.now) samples.now }
    ensures tallied { result ≡ counted s samples.now c }
{
    let mut firsts = [0i16; 324];
    let mut rises = [0i32; 324];
    points::fill(&mut firsts, &mut rises, ys, 0, 256, s.y.below, s.y.above);
    points::fill(&mut firsts, &mut rises, xs, 258, 64, s.x.below, s.x.above);
    let all_rows = rows::rows_of(s, rows::rows_x(s.x), rows::linear_rows(s.y, 0, 256));
    let x = s.x;
    let mode = x.mode;
    let mut seen = [0u32; 9];
    all(
        all_rows,
        bounds_of(s),
        &firsts,
        &rises,
        wide_of(mode),
        samples,
        outputs,
        &mut seen,
    );
    tallied(c, seen)
}
