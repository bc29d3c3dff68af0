// The points that the rows go by: each has a first number and what it rises by.
// Two arrays, and none of structs: a model in C of the fill and the loops (clang 14, -O3) took 167 ns for a run of one sample with two arrays, 259 with one, and a sample cost the same.
ghost use Rattle.std.specs.Prelude.{◌≡◌, true, ◌+◌, ◌≤◌, ◌<◌, length, set};
ghost use Rattle.lut.specs.Rules.{shift_valid};
ghost use Rattle.lut_calls.specs.StepsPoints.{slope_rise, Filled};

use crate::numbers;
use lut::Slope;

// How far a slope rises at each step of its row.
fn rise(s: Slope) -> i32
    requires { shift_valid s.shift ≡ true }
    ensures { result ≡ slope_rise s }
{
    let scale = s.scale;
    let shift = s.shift;
    scale as i32 * numbers::power(numbers::below_zero(shift)) as i32
}

// Writes one point.
fn write(firsts: &mut [i16; 324], rises: &mut [i32; 324], at: usize, first: i16, rise: i32)
    requires { at < 324 }
    ensures { (firsts.new ≡ set firsts.old at first) × (rises.new ≡ set rises.old at rise) }
{
    firsts[at] = first;
    rises[at] = rise;
}

// The points of a table, from base on: one for each entry, the last rising as the slope above, then one for the slope below.
pub(crate) fn fill(
    firsts: &mut [i16; 324],
    rises: &mut [i32; 324],
    table: &[i16],
    base: usize,
    last: usize,
    below: Slope,
    above: Slope,
)
    requires firsts_len { (length firsts.old ≡ 324) × (length rises.old ≡ 324) × (base + last ≤ 322) × (last < length table.now) }
    requires shift_value { (shift_valid below.shift ≡ true) × (shift_valid above.shift ≡ true) }
    ensures { Filled firsts.old rises.old firsts.new rises.new table.now base last below above }
{
    for i in 0..last {
        let a = table[i];
        let b = table[i + 1];
        write(firsts, rises, base + i, a, b as i32 - a as i32);
    }
    let start = table[0];
    let end = table[last];
    write(firsts, rises, base + last, end, rise(above));
    write(firsts, rises, base + last + 1, start, rise(below));
}
