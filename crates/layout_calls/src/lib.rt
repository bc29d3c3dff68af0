// The checks of cube layouts and boxes, the extent, and whose a byte is: the calls on the definitions of `layout` (scope paper, "Cells and cubes").
#![tactic(auto)]

mod measure;
mod rules;
pub mod valid;

ghost use Rattle.std.specs.Prelude.{◌≡◌, IfOk};
ghost use Rattle.refusal.specs.Checks.{in_order};
ghost use Rattle.refusal.specs.Codes.{answer_of};
ghost use Rattle.layout.specs.Boxes.{span_inside};
ghost use Rattle.layout.specs.Rules.{layout_checks, box_checks, admit_checks};
ghost use Rattle.layout.specs.Calls.{clear_box_answer, extent_quantity};
ghost use Rattle.layout.specs.Whose.{whose_answer};

use layout::{ByteOwner, CubeLayout, ElementBox};
use refusal::{Answer, Fault, Quantity, Refusal};
use valid::ValidLayout;

// `count` numbers from `first` on, at least one, all below `size`.
pub fn span_inside(first: u32, count: u32, size: u32) -> bool
    ensures { result ≡ span_inside first count size }
{
    if count < 1 {
        return false;
    }
    first as u64 + count as u64 <= size as u64
}

// Checks 1 to 4.
pub fn check(layout: CubeLayout) -> Answer
    ensures { result ≡ in_order (layout_checks layout) }
{
    if !rules::sizes_valid(layout) {
        return Err(Fault(Refusal::Size, 0));
    }
    if 3 <= layout.precision {
        return Err(Fault(Refusal::Precision, 0));
    }
    if !rules::strides_valid(layout.width, layout.height, layout.line, layout.surface) {
        return Err(Fault(Refusal::CubeStrides, 0));
    }
    if layout.start % 32 != 0 {
        return Err(Fault(Refusal::CubeStart, 0));
    }
    Ok(())
}

// The layout, checked. Checks 1 to 4.
pub fn checked(layout: CubeLayout) -> Result<ValidLayout, Fault>
    ensures answered { answer_of result ≡ in_order (layout_checks layout) }
    ensures same { IfOk result (λ c. c.layout ≡ layout) }
{
    check(layout)?;
    Ok(ValidLayout { layout })
}

// Bytes from the start to the end of the last atom.
pub fn extent(layout: CubeLayout) -> Quantity
    ensures { result ≡ extent_quantity layout }
{
    Ok(checked(layout)?.extent())
}

// Whose the byte at a position is. Checks 1 to 4.
pub fn whose(layout: CubeLayout, position: u64) -> Result<ByteOwner, Fault>
    ensures { result ≡ whose_answer layout position }
{
    Ok(checked(layout)?.byte_owner(position))
}

// Checks 1 to 4, 9.
pub fn check_box(layout: CubeLayout, b: ElementBox) -> Answer
    ensures { result ≡ in_order (box_checks layout b) }
{
    check(layout)?;
    if !rules::box_inside(layout, b) {
        return Err(Fault(Refusal::Bounds, 0));
    }
    Ok(())
}

// Checks 1 to 4, 9, 5 of a call on a box that lends a buffer of `len` bytes and no elements.
pub fn check_room(layout: CubeLayout, b: ElementBox, len: usize) -> Answer
    ensures { result ≡ clear_box_answer layout b len }
{
    check_box(layout, b)?;
    let valid = ValidLayout { layout };
    let end = valid.end();
    if (len as u64) < end {
        return Err(Fault(Refusal::BufferLength, 0));
    }
    Ok(())
}

// Checks 1 to 4, 9, 6, 5 of a call that lends `given` elements for a box and a buffer of `len` bytes.
pub fn admit(layout: CubeLayout, b: ElementBox, given: usize, len: usize) -> Answer
    ensures { result ≡ in_order (admit_checks layout b given len) }
{
    check_box(layout, b)?;
    let valid = ValidLayout { layout };
    if given as u64 != measure::box_count(b) {
        return Err(Fault(Refusal::ElementCount, 0));
    }
    if (len as u64) < valid.end() {
        return Err(Fault(Refusal::BufferLength, 0));
    }
    Ok(())
}
