// Sixteen regions of one cube.
ghost use Rattle.std.specs.Prelude.{◌≡◌, length};
ghost use Rattle.regions.specs.Slots.{rectangle};
ghost use Rattle.regions.specs.Calls.{empty_table, place_answer, edit_answer, edit_buffer, read_answer, read_elements, release_answer, release_buffer, region_position, region_count};
ghost use Rattle.olsketina.specs.Answers.{Answered, Valued};
ghost use Rattle.olsketina.specs.Words.{layout_from, box_from};
ghost use Rattle.olsketina.specs.Tables.{table_at, with_table, place_words, release_words};

use crate::words::{BOX_WORDS, LAYOUT_WORDS, TABLE_WORDS};
use crate::{answers, tables, words};
use regions::Rectangle;

// regions_calls::empty
#[unsafe(no_mangle)]
pub extern "C" fn olsketina_regions_empty(
    layout: &[u32; LAYOUT_WORDS],
    table: &mut [u32; TABLE_WORDS],
)
    ensures { table.new ≡ with_table (empty_table (layout_from layout.now)) 0 table.old }
{
    let t = regions_calls::empty(words::layout_at(layout, 0));
    tables::write_table(table, 0, t);
}

// regions_calls::place
#[unsafe(no_mangle)]
pub extern "C" fn olsketina_regions_place(
    table: &mut [u32; TABLE_WORDS],
    slot: u32,
    id: u32,
    column: u32,
    row: u32,
    columns: u32,
    rows: u32,
    fault: &mut usize,
) -> u32
    ensures answered { Answered (place_answer (table_at table.old 0) slot id (rectangle column row columns rows)) result fault.new }
    ensures left { table.new ≡ place_words table.old slot id (rectangle column row columns rows) }
{
    let before = tables::table_at(table, 0);
    let rectangle = Rectangle {
        column,
        row,
        columns,
        rows,
    };
    let o = regions_calls::place(before, slot, id, rectangle);
    tables::leave_table(table, o.answer, o.table);
    answers::give(o.answer, fault)
}

// regions_calls::edit
#[unsafe(no_mangle)]
pub extern "C" fn olsketina_regions_edit(
    table: &[u32; TABLE_WORDS],
    slot: u32,
    id: u32,
    b: &[u32; BOX_WORDS],
    elements: &[i16],
    buffer: &mut [u8],
    fault: &mut usize,
) -> u32
    ensures answered { Answered (edit_answer (table_at table.now 0) slot id (box_from b.now) elements.now (length buffer.old)) result fault.new }
    ensures left { buffer.new ≡ edit_buffer (table_at table.now 0) slot id (box_from b.now) elements.now buffer.old }
{
    let t = tables::table_at(table, 0);
    let o = regions_calls::edit(t, slot, id, words::box_of(b), elements, buffer);
    answers::give(o.answer, fault)
}

// regions_calls::read
#[unsafe(no_mangle)]
pub extern "C" fn olsketina_regions_read(
    table: &[u32; TABLE_WORDS],
    slot: u32,
    id: u32,
    b: &[u32; BOX_WORDS],
    buffer: &[u8],
    elements: &mut [i16],
    fault: &mut usize,
) -> u32
    ensures answered { Answered (read_answer (table_at table.now 0) slot id (box_from b.now) (length elements.old) (length buffer.now)) result fault.new }
    ensures left { elements.new ≡ read_elements (table_at table.now 0) slot id (box_from b.now) buffer.now elements.old }
{
    let t = tables::table_at(table, 0);
    let o = regions_calls::read(t, slot, id, words::box_of(b), buffer, elements);
    answers::give(o.answer, fault)
}

// regions_calls::release
#[unsafe(no_mangle)]
pub extern "C" fn olsketina_regions_release(
    table: &mut [u32; TABLE_WORDS],
    slot: u32,
    id: u32,
    buffer: &mut [u8],
    fault: &mut usize,
) -> u32
    ensures answered { Answered (release_answer (table_at table.old 0) slot id (length buffer.old)) result fault.new }
    ensures left { table.new ≡ release_words table.old slot id (length buffer.old) }
    ensures cleared { buffer.new ≡ release_buffer (table_at table.old 0) slot id buffer.old }
{
    let before = tables::table_at(table, 0);
    let freed = regions_calls::release(before, slot, id, buffer);
    tables::leave_table(table, freed.answer, freed.table);
    answers::give(freed.answer, fault)
}

// regions_calls::position
#[unsafe(no_mangle)]
pub extern "C" fn olsketina_regions_position(
    table: &[u32; TABLE_WORDS],
    slot: u32,
    id: u32,
    channel: u32,
    row: u32,
    column: u32,
    value: &mut u64,
    fault: &mut usize,
) -> u32
    ensures { Valued (region_position (table_at table.now 0) slot id channel row column) value.old result value.new fault.new }
{
    let t = tables::table_at(table, 0);
    let n = regions_calls::position(t, slot, id, channel, row, column);
    answers::give_value(n, value, fault)
}

// regions_calls::count
#[unsafe(no_mangle)]
pub extern "C" fn olsketina_regions_count(
    table: &[u32; TABLE_WORDS],
    slot: u32,
    id: u32,
    value: &mut u64,
    fault: &mut usize,
) -> u32
    ensures { Valued (region_count (table_at table.now 0) slot id) value.old result value.new fault.new }
{
    let t = tables::table_at(table, 0);
    let n = regions_calls::count(t, slot, id);
    answers::give_value(n, value, fault)
}
