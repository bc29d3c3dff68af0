// Padding made zero again in a part of a file: the call on the definitions of `padding` (change request K8).
#![tactic(auto)]

mod lengths;
mod rows;
mod stretches;

ghost use Rattle.std.specs.Prelude.{◌≡◌};
ghost use Rattle.refusal.specs.Checks.{in_order};
ghost use Rattle.padding.specs.Calls.{lent, mend_checks, mend_count, mend_left};

use layout::CubeLayout;
use refusal::{Answer, Fault, Quantity, Refusal};

// All checks: 1 to 4, 5 for the frame and for the part, 18.
fn check(
    layout: CubeLayout,
    first: u64,
    length: u64,
    n: usize,
    positions: usize,
    olds: usize,
) -> Answer
    ensures { result ≡ in_order (mend_checks layout first length n positions olds) }
{
    let extent = layout_calls::extent(layout)?;
    if length < layout.start as u64 + extent {
        return Err(Fault(Refusal::BufferLength, 0));
    }
    lengths::check(first, length, n, positions, olds)
}

// Makes each padding byte of a part of a file zero, and reports those that were not: their positions in the file, ascending, and what stood there; the
// answer says how many. `first` is the part's first position, `length` the file's length. Checks 1 to 4, 5, 18.
pub fn mend(
    layout: CubeLayout,
    first: u64,
    length: u64,
    part: &mut [u8],
    positions: &mut [u64],
    olds: &mut [u8],
) -> Quantity
    ensures counted { result ≡ mend_count layout first length (lent part.old positions.old olds.old) }
    ensures part_left { part.new ≡ (mend_left layout first length (lent part.old positions.old olds.old)).part }
    ensures positions_left { positions.new ≡ (mend_left layout first length (lent part.old positions.old olds.old)).positions }
    ensures olds_left { olds.new ≡ (mend_left layout first length (lent part.old positions.old olds.old)).olds }
{
    check(
        layout,
        first,
        length,
        part.len(),
        positions.len(),
        olds.len(),
    )?;
    Ok(rows::all(layout, first, part, positions, olds) as u64)
}
