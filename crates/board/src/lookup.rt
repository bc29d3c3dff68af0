// The lookup: its run, and what is printed of it. The elements that are lent are the entries of X and then those of Y.
ghost use Rattle.std.specs.Prelude.{◌≤◌};

use crate::answers::print_answer;
use crate::line::Unmade;
use crate::lists::tell;
use crate::numbers::Numbers;
use crate::print::print_natural;
use lut::{Counters, LutSettings, Slope, Table, XMode, XSettings, YSettings};

// The most outputs of a run.
const MOST_OUTPUTS: usize = 65536;

// A slope of nothing.
const NO_SLOPE: Slope = Slope { scale: 0, shift: 0 };

// The settings before the first lines: all numbers are 0.
pub const NO_SETTINGS: LutSettings = LutSettings {
    x: XSettings {
        mode: XMode::Linear(0),
        start: 0,
        end: 0,
        below: NO_SLOPE,
        above: NO_SLOPE,
    },
    y: YSettings {
        select: 0,
        start: 0,
        end: 0,
        below: NO_SLOPE,
        above: NO_SLOPE,
    },
    priority: Table::X,
    overflow: Table::X,
    underflow: Table::X,
};

pub const NO_COUNTERS: Counters = Counters {
    x: 0,
    y: 0,
    underflow: 0,
    overflow: 0,
    priority: 0,
};

// The outputs of a run: how many, and what they are before it.
#[derive(Clone, Copy)]
struct Outputs {
    count: usize,
    before: i32,
}

impl Outputs {
    // A run over them, with the entries of both tables; prints its answer, the counters and the outputs, or their checksum. The counters after it. A function of its own: its list is filled where it begins, so no refused line
    // fills it.
    fn run(
        self,
        line: u64,
        sums: bool,
        settings: LutSettings,
        counters: Counters,
        tables: (&[i16], &[i16]),
        samples: &[i32],
    ) -> Counters
        requires { self.count ≤ 65536 }
    {
        let mut outputs = [self.before; MOST_OUTPUTS];
        let outputs = &mut outputs[..self.count];
        let (xs, ys) = tables;
        let outcome = lut_calls::run(settings, xs, ys, samples, outputs, counters);
        let counters = outcome.counters;
        print_answer(line, outcome.answer);
        let counts = [
            counters.x,
            counters.y,
            counters.underflow,
            counters.overflow,
            counters.priority,
        ];
        for count in counts {
            print_natural(u64::from(count));
        }
        tell(sums, outputs);
        counters
    }
}

// `lookup X M v`: a run over M outputs, at most 65536, which are v before it; the first X entries are X's. The counters after it.
pub fn run(
    line: u64,
    mut n: Numbers,
    sums: bool,
    settings: LutSettings,
    counters: Counters,
    entries: &[i16],
    samples: &[i32],
) -> Result<Counters, Unmade> {
    let split = n.index();
    let outputs = Outputs {
        count: n.index(),
        before: n.natural().cast_signed(),
    };
    if entries.len() < split || MOST_OUTPUTS < outputs.count {
        return Err(Unmade::Unreadable);
    }
    Ok(outputs.run(
        line,
        sums,
        settings,
        counters,
        entries.split_at(split),
        samples,
    ))
}
