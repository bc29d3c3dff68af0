// Reading a box: atom by atom of its channels, row by row, one column in each atom.
ghost use Rattle.std.specs.Prelude.{◌≡◌, length};
ghost use Rattle.refusal.specs.Checks.{in_order, Accepted};
ghost use Rattle.layout.specs.Rules.{admit_checks};
ghost use Rattle.layout.specs.Contents.{box_elements};

use crate::runs::{self, Spacing};
use layout::{CubeLayout, ElementBox};

// All channels of the box, those of one atom after another, all rows of these before the next.
pub(crate) fn all(layout: CubeLayout, b: ElementBox, buffer: &[u8], elements: &mut [i16])
    requires { in_order (admit_checks layout b (length elements.old) (length buffer.now)) ≡ Accepted }
    ensures { elements.new ≡ box_elements layout b buffer.now }
{
    let e = elements::element_bytes(layout.precision);
    let spacing = Spacing::raw(b);
    let mut n: u32 = 0;
    // A while: it goes on by what atom_end gives, not by one.
    while n < b.channels {
        let m = runs::atom_end(e, b.channel, b.channels, n);
        for r in 0..b.rows {
            let block = runs::row(layout, b, spacing, n, m, r);
            columns_calls::read(block, buffer, elements);
        }
        n = m;
    }
}
