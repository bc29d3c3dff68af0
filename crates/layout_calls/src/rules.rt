// The rules behind the checks, one function each.
ghost use Rattle.std.specs.Prelude.{◌≡◌, ◌≤◌, ◌<◌};
ghost use Rattle.layout.specs.Rules.{sizes_valid, strides_valid};
ghost use Rattle.layout.specs.Boxes.{box_inside};

use layout::{CubeLayout, ElementBox};

// Width, height and channels.
pub(crate) fn sizes_valid(layout: CubeLayout) -> bool
    ensures { result ≡ sizes_valid layout }
{
    if !refusal::size_valid(8192, layout.width) {
        return false;
    }
    if !refusal::size_valid(8192, layout.height) {
        return false;
    }
    refusal::size_valid(8192, layout.channels)
}

// Multiples of 32; a line holds its atoms, a surface its lines.
pub(crate) fn strides_valid(width: u32, height: u32, line: u32, surface: u32) -> bool
    requires { (width ≤ 8192) × (0 < height) × (height ≤ 8192) }
    ensures { result ≡ strides_valid width height line surface }
{
    if line % 32 != 0 {
        return false;
    }
    if surface % 32 != 0 {
        return false;
    }
    let atoms = 32 * width;
    if line < atoms {
        return false;
    }
    (height as u64 - 1) * line as u64 + atoms as u64 <= surface as u64
}

// The box has elements, and all of them are in the cube.
pub(crate) fn box_inside(layout: CubeLayout, b: ElementBox) -> bool
    ensures { result ≡ box_inside layout b }
{
    if !crate::span_inside(b.channel, b.channels, layout.channels) {
        return false;
    }
    if !crate::span_inside(b.row, b.rows, layout.height) {
        return false;
    }
    crate::span_inside(b.column, b.columns, layout.width)
}
