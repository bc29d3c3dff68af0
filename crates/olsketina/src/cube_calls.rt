// Cube layouts, and cubes packed and read back.
ghost use Rattle.std.specs.Prelude.{◌≡◌, length};
ghost use Rattle.refusal.specs.Checks.{in_order};
ghost use Rattle.layout.specs.Rules.{layout_checks};
ghost use Rattle.layout.specs.Calls.{extent_quantity, pack_answer, pack_buffer, unpack_answer, unpack_elements, position_quantity};
ghost use Rattle.olsketina.specs.Answers.{Answered, Valued};
ghost use Rattle.olsketina.specs.Words.{layout_from};

use crate::words::LAYOUT_WORDS;
use crate::{answers, words};

// layout_calls::check
#[unsafe(no_mangle)]
pub extern "C" fn olsketina_layout_check(layout: &[u32; LAYOUT_WORDS], fault: &mut usize) -> u32
    ensures { Answered (in_order (layout_checks (layout_from layout.now))) result fault.new }
{
    let checked = layout_calls::check(words::layout_at(layout, 0));
    answers::give(checked, fault)
}

// layout_calls::extent
#[unsafe(no_mangle)]
pub extern "C" fn olsketina_layout_extent(
    layout: &[u32; LAYOUT_WORDS],
    value: &mut u64,
    fault: &mut usize,
) -> u32
    ensures { Valued (extent_quantity (layout_from layout.now)) value.old result value.new fault.new }
{
    let extent = layout_calls::extent(words::layout_at(layout, 0));
    answers::give_value(extent, value, fault)
}

// cube::pack
#[unsafe(no_mangle)]
pub extern "C" fn olsketina_cube_pack(
    layout: &[u32; LAYOUT_WORDS],
    elements: &[i16],
    buffer: &mut [u8],
    fault: &mut usize,
) -> u32
    ensures answered { Answered (pack_answer (layout_from layout.now) elements.now (length buffer.old)) result fault.new }
    ensures left { buffer.new ≡ pack_buffer (layout_from layout.now) elements.now buffer.old }
{
    let packed = cube::pack(words::layout_at(layout, 0), elements, buffer);
    answers::give(packed, fault)
}

// cube::unpack
#[unsafe(no_mangle)]
pub extern "C" fn olsketina_cube_unpack(
    layout: &[u32; LAYOUT_WORDS],
    buffer: &[u8],
    elements: &mut [i16],
    fault: &mut usize,
) -> u32
    ensures answered { Answered (unpack_answer (layout_from layout.now) (length elements.old) (length buffer.now)) result fault.new }
    ensures left { elements.new ≡ unpack_elements (layout_from layout.now) buffer.now elements.old }
{
    let unpacked = cube::unpack(words::layout_at(layout, 0), buffer, elements);
    answers::give(unpacked, fault)
}

// cube::position
#[unsafe(no_mangle)]
pub extern "C" fn olsketina_cube_position(
    layout: &[u32; LAYOUT_WORDS],
    channel: u32,
    row: u32,
    column: u32,
    value: &mut u64,
    fault: &mut usize,
) -> u32
    ensures { Valued (position_quantity (layout_from layout.now) channel row column) value.old result value.new fault.new }
{
    let position = cube::position(words::layout_at(layout, 0), channel, row, column);
    answers::give_value(position, value, fault)
}
