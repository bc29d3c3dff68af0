// The rows: what answers the samples of each pair of sides.
ghost use Rattle.std.specs.Prelude.{◌≡◌, true, ◌+◌, ◌≤◌, nat_abs};
ghost use Rattle.lut.specs.Rules.{mode_valid};
ghost use Rattle.lut_calls.specs.StepsRows.{slope_row, line_row, power_row, linear_rows, rows_x, picked, rows_of};

use crate::{Row, TableRows, numbers};
use lut::{LutSettings, Table, XMode, XSettings, YSettings};

// The row past an end of a table.
fn slope_row(origin: i32, shift: i32, base: usize) -> Row
    ensures { result ≡ slope_row origin shift base }
{
    let down = numbers::above_zero(shift);
    Row {
        origin: origin,
        size: 1,
        shift: down,
        on: 0,
        base: base,
        wide: 0,
    }
}

// The row of a linear table's hits.
fn line_row(start: i32, select: i32, base: usize) -> Row
    requires { nat_abs select ≤ 25 }
    ensures { result ≡ line_row start select base }
{
    let down = numbers::above_zero(select);
    let size = numbers::power(numbers::below_zero(select));
    Row {
        origin: start,
        size: size as i64,
        shift: down,
        on: 1,
        base: base,
        wide: 0,
    }
}

// The row of an exponential table's hits.
fn power_row(start: i32, offset: i32) -> Row
    requires { nat_abs offset ≤ 32 }
    ensures { result ≡ power_row start offset }
{
    Row {
        origin: start,
        size: 1,
        shift: 0,
        on: 1,
        base: (257 - offset) as usize,
        wide: 1,
    }
}

// The rows of a linear table with a last entry, its points from base on.
pub(crate) fn linear_rows(t: YSettings, base: usize, last: usize) -> TableRows
    requires { (nat_abs t.select ≤ 25) × (base + last ≤ 322) }
    ensures { result ≡ linear_rows t base last }
{
    let start = t.start;
    let end = t.end;
    let select = t.select;
    let below = t.below.shift;
    let above = t.above.shift;
    TableRows {
        below: slope_row(start, below, base + last + 1),
        hit: line_row(start, select, base),
        above: slope_row(end, above, base + last),
    }
}

// The rows of the X table.
pub(crate) fn rows_x(s: XSettings) -> TableRows
    requires { mode_valid s.mode ≡ true }
    ensures { result ≡ rows_x s }
{
    let mode = s.mode;
    let start = s.start;
    let end = s.end;
    let below = s.below;
    let above = s.above;
    match mode {
        XMode::Linear(select) => linear_rows(
            YSettings {
                select: select,
                start: start,
                end: end,
                below: below,
                above: above,
            },
            258,
            64,
        ),
        XMode::Exponential(offset) => TableRows {
            below: slope_row(start, below.shift, 323),
            hit: power_row(start, offset),
            above: slope_row(end, above.shift, 322),
        },
    }
}

// One of two rows, by the table that answers.
fn picked(table: Table, x: Row, y: Row) -> Row
    ensures { result ≡ picked table x y }
{
    match table {
        Table::X => x,
        Table::Y => y,
    }
}

// The rows of all pairs of sides.
pub(crate) fn rows_of(s: LutSettings, x: TableRows, y: TableRows) -> [Row; 9]
    ensures { result ≡ rows_of s x y }
{
    let priority = s.priority;
    let overflow = s.overflow;
    let underflow = s.underflow;
    let x_hit = x.hit;
    let y_hit = y.hit;
    [
        picked(underflow, x.below, y.below),
        y_hit,
        picked(priority, x.below, y.above),
        x_hit,
        picked(priority, x.hit, y.hit),
        x_hit,
        picked(priority, x.above, y.below),
        y_hit,
        picked(overflow, x.above, y.above),
    ]
}
