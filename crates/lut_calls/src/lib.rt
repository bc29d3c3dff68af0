// The run of the two-table lookup: the call on the definitions of `lut` (scope paper, "Two tables").
#![tactic(auto)]

mod numbers;
mod points;
mod rows;
mod rules;
mod samples;

ghost use Rattle.std.specs.Prelude.{◌≡◌, length};
ghost use Rattle.lut.specs.Calls.{run_answer, run_outputs, run_counters};

use lut::{Counters, LutOutcome, LutSettings};

// What answers the samples of one pair of sides. A sample's distance from the origin, in steps of a size, leads by whole steps of 2^shift to a point from
// base on, where steps count: on is then 1, else 0. Wide is 1 where the row is exponential, else 0.
// On and wide are numbers and no bools: a distance is multiplied by them, so that the loop over the samples has no branch on a row's kind.
#[derive(Clone, Copy)]
struct Row {
    origin: i32,
    size: i64,
    shift: u32,
    on: i64,
    base: usize,
    wide: i64,
}

// The rows of one table, by the side of the sample.
#[derive(Clone, Copy)]
struct TableRows {
    below: Row,
    hit: Row,
    above: Row,
}

// The first sample that is not below a table, and the last that is not above it.
#[derive(Clone, Copy)]
struct Span {
    first: i64,
    last: i64,
}

// The spans of both tables.
#[derive(Clone, Copy)]
struct Bounds {
    x: Span,
    y: Span,
}

// Answers every sample from the two tables, and counts the samples of each kind.
pub fn run(
    s: LutSettings,
    xs: &[i16],
    ys: &[i16],
    samples: &[i32],
    outputs: &mut [i32],
    counters: Counters,
) -> LutOutcome
    ensures answered { result.answer ≡ run_answer s xs.now ys.now samples.now (length outputs.old) counters }
    ensures counted { result.counters ≡ run_counters s xs.now ys.now samples.now (length outputs.old) counters }
    ensures left { outputs.new ≡ run_outputs s xs.now ys.now samples.now counters outputs.old }
{
    match rules::check(
        s,
        xs.len(),
        ys.len(),
        samples.len(),
        outputs.len(),
        counters,
    ) {
        Err(fault) => LutOutcome {
            answer: Err(fault),
            counters,
        },
        Ok(()) => LutOutcome {
            answer: Ok(()),
            counters: samples::answer_all(s, xs, ys, samples, outputs, counters),
        },
    }
}
