// Mending: one call, with the buffer as a part of a file (change request K8).
ghost use Rattle.std.specs.Prelude.{◌≤◌};

use crate::answers::print_quantity;
use crate::line::Unmade;
use crate::lists::{show, sum_of, tell_left};
use crate::numbers::Numbers;
use crate::print::end_line;
use layout::CubeLayout;

// The most places that a report has.
pub const MOST_PLACES: usize = 65536;

// The numbers of a line `mend part`.
#[derive(Clone, Copy)]
struct PartLine {
    layout: CubeLayout,
    first: u64,
    length: u64,
    // how many places the report has, for positions and for old values
    positions: usize,
    olds: usize,
    // what they are before the call
    before: u32,
}

impl PartLine {
    // The call; prints its answer, then the places of its report and the buffer, or their checksums. A function of its own: its lists are filled where it begins, so no refused line fills them.
    fn mend(self, line: u64, sums: bool, buffer: &mut [u8])
        requires { (self.positions ≤ 65536) × (self.olds ≤ 65536) }
    {
        let mut positions = [u64::from(self.before); MOST_PLACES];
        let mut olds = [(self.before & 0xff) as u8; MOST_PLACES];
        let positions = &mut positions[..self.positions];
        let olds = &mut olds[..self.olds];
        let count = padding_calls::mend(
            self.layout,
            self.first,
            self.length,
            buffer,
            positions,
            olds,
        );
        print_quantity(line, count);
        if sums {
            sum_of(positions).print();
            tell_left(true, olds, buffer);
        } else {
            end_line();
            show(positions);
            show(olds);
            show(buffer);
        }
    }
}

// `mend part W.. first length P O v`: one call, over P places for positions and O for old values, which are v before it.
pub fn part(line: u64, mut n: Numbers, sums: bool, buffer: &mut [u8]) -> Result<(), Unmade> {
    let part = PartLine {
        layout: n.cube_layout(),
        first: n.wide(),
        length: n.wide(),
        positions: n.index(),
        olds: n.index(),
        before: n.natural(),
    };
    if MOST_PLACES < part.positions || MOST_PLACES < part.olds {
        return Err(Unmade::Unreadable);
    }
    part.mend(line, sums, buffer);
    Ok(())
}
