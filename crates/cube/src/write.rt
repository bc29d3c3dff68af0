// Writing a box: atom by atom of its channels, row by row, one column in each atom.
ghost use Rattle.std.specs.Prelude.{◌≡◌, true, ◌+◌, ◌-◌, ◌≤◌, length};
ghost use Rattle.refusal.specs.Checks.{Accepted};
ghost use Rattle.layout.specs.Boxes.{whole_box};
ghost use Rattle.layout.specs.Contents.{edited, zeros_of};
ghost use Rattle.layout.specs.Calls.{clear_box_answer};
ghost use Rattle.cube.specs.Steps.{run_from, gathered, box_written};

use crate::runs::{self, Spacing};
use layout::{CubeLayout, ElementBox};

// All channels of the box, those of one atom after another, all rows of these before the next. With `PAD` the box is the whole cube, and a row's atoms
// that the channels do not fill, which alone have padding, are cleared just before they are written.
pub(crate) fn all<const PAD: bool>(
    layout: CubeLayout,
    b: ElementBox,
    elements: &[i16],
    spacing: Spacing,
    buffer: &mut [u8],
)
    requires buffer_value { clear_box_answer layout b (length buffer.old) ≡ Accepted }
    requires b_value { PAD ≡ true → b ≡ whole_box layout }
    requires columns_in_bounds { run_from spacing.plane spacing.line (b.channels - 1) (b.rows - 1) + b.columns ≤ length elements.now }
    ensures { buffer.new ≡ box_written layout b PAD (gathered b spacing.plane spacing.line elements.now) buffer.old }
{
    let e = elements::element_bytes(layout.precision);
    let mut n: u32 = 0;
    // A while: it goes on by what atom_end gives, not by one.
    while n < b.channels {
        let m = runs::atom_end(e, b.channel, b.channels, n);
        let clear = PAD & ((m - n) * e < 32);
        for r in 0..b.rows {
            let block = runs::row(layout, b, spacing, n, m, r);
            if clear {
                columns_calls::clear(block.at, 32 * block.count as usize, buffer);
            }
            columns_calls::write(block, elements, buffer);
        }
        n = m;
    }
}

// Sets the elements of a box to 0, in strips of at most 64 columns, each written from the same 64 zeros.
pub(crate) fn zeros(layout: CubeLayout, b: ElementBox, buffer: &mut [u8])
    requires { clear_box_answer layout b (length buffer.old) ≡ Accepted }
    ensures { buffer.new ≡ edited layout b (zeros_of b) buffer.old }
{
    let none = [0i16; 64];
    let same = Spacing { plane: 0, line: 0 };
    for done in (0..b.columns).step_by(64) {
        let strip = ElementBox {
            column: b.column + done,
            columns: (b.columns - done).min(64),
            ..b
        };
        all::<false>(layout, strip, &none, same, buffer);
    }
}
