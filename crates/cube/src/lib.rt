// Feature cubes packed and read back, whole or a box at a time, and boxes cleared (scope paper, "Cells and cubes").
#![tactic(auto)]

mod read;
mod runs;
mod write;

ghost use Rattle.std.specs.Prelude.{◌≡◌, length};
ghost use Rattle.layout.specs.Boxes.{whole_box};
ghost use Rattle.layout.specs.Calls.{pack_answer, pack_buffer, unpack_answer, unpack_elements, write_box_answer, write_box_buffer, clear_box_answer, clear_box_buffer, read_box_answer, read_box_elements, position_quantity};

use layout::{CubeLayout, ElementBox};
use refusal::{Answer, Quantity};
use runs::Spacing;

// The box of the whole cube.
fn whole(layout: CubeLayout) -> ElementBox
    ensures { result ≡ whole_box layout }
{
    ElementBox {
        channel: 0,
        row: 0,
        column: 0,
        channels: layout.channels,
        rows: layout.height,
        columns: layout.width,
    }
}

// All checks of a call that writes a box: 1 to 4, 9, 6, 5, then 7 or 26.
fn judge(layout: CubeLayout, b: ElementBox, elements: &[i16], len: usize) -> Answer
    ensures { result ≡ write_box_answer layout b elements.now len }
{
    layout_calls::admit(layout, b, elements.len(), len)?;
    elements::check_values(layout.precision, elements)
}

// All checks of packing into a buffer of `len` bytes: 1 to 4, 6, 5, then 7 or 26.
pub fn check_pack(layout: CubeLayout, elements: &[i16], len: usize) -> Answer
    ensures { result ≡ pack_answer layout elements.now len }
{
    judge(layout, whole(layout), elements, len)
}

// Packs a raw tensor into a buffer: every atom is written whole, its padding as 0; every other byte stays.
pub fn pack(layout: CubeLayout, elements: &[i16], buffer: &mut [u8]) -> Answer
    ensures answered { result ≡ pack_answer layout elements.now (length buffer.old) }
    ensures left { buffer.new ≡ pack_buffer layout elements.now buffer.old }
{
    check_pack(layout, elements, buffer.len())?;
    let cube = whole(layout);
    let spacing = Spacing::raw(cube);
    write::all::<true>(layout, cube, elements, spacing, buffer);
    Ok(())
}

// Reads a packed cube back into a raw tensor; padding is ignored.
pub fn unpack(layout: CubeLayout, buffer: &[u8], elements: &mut [i16]) -> Answer
    ensures answered { result ≡ unpack_answer layout (length elements.old) (length buffer.now) }
    ensures left { elements.new ≡ unpack_elements layout buffer.now elements.old }
{
    let cube = whole(layout);
    layout_calls::admit(layout, cube, elements.len(), buffer.len())?;
    read::all(layout, cube, buffer, elements);
    Ok(())
}

// Writes the elements of a box, in raw order over the box, and no other byte.
pub fn write_box(layout: CubeLayout, b: ElementBox, elements: &[i16], buffer: &mut [u8]) -> Answer
    ensures answered { result ≡ write_box_answer layout b elements.now (length buffer.old) }
    ensures left { buffer.new ≡ write_box_buffer layout b elements.now buffer.old }
{
    judge(layout, b, elements, buffer.len())?;
    let spacing = Spacing::raw(b);
    write::all::<false>(layout, b, elements, spacing, buffer);
    Ok(())
}

// Sets the elements of a box to 0, and no other byte.
pub fn clear_box(layout: CubeLayout, b: ElementBox, buffer: &mut [u8]) -> Answer
    ensures answered { result ≡ clear_box_answer layout b (length buffer.old) }
    ensures left { buffer.new ≡ clear_box_buffer layout b buffer.old }
{
    layout_calls::check_room(layout, b, buffer.len())?;
    write::zeros(layout, b, buffer);
    Ok(())
}

// Reads the elements of a box, in raw order over the box.
pub fn read_box(layout: CubeLayout, b: ElementBox, buffer: &[u8], elements: &mut [i16]) -> Answer
    ensures answered { result ≡ read_box_answer layout b (length elements.old) (length buffer.now) }
    ensures left { elements.new ≡ read_box_elements layout b buffer.now elements.old }
{
    layout_calls::admit(layout, b, elements.len(), buffer.len())?;
    read::all(layout, b, buffer, elements);
    Ok(())
}

// The byte at which an element begins.
pub fn position(layout: CubeLayout, channel: u32, row: u32, column: u32) -> Quantity
    ensures { result ≡ position_quantity layout channel row column }
{
    let one = ElementBox {
        channel,
        row,
        column,
        channels: 1,
        rows: 1,
        columns: 1,
    };
    layout_calls::check_box(layout, one)?;
    Ok(runs::position_of(layout, channel, row, column))
}
