// Placing, editing, reading and releasing sixteen regions: the calls on the definitions of `regions` (scope paper, "Stalls"; change request K1). Each
// takes the id of the region's owner.
#![tactic(auto)]

mod overlap;
mod rules;

ghost use Rattle.std.specs.Prelude.{◌≡◌, ◌<◌, length};
ghost use Rattle.regions.specs.Calls.{no_region, empty_table, with_slot, place_answer, place_table, edit_answer, edit_buffer, read_answer, read_elements, release_answer, release_table, release_buffer, region_position, region_count, region_found};

use layout::{CubeLayout, ElementBox};
use refusal::{Answer, Fault, Quantity};
use regions::{Outcome, Rectangle, Region, RegionTable};
use rules::Part;

// The slot of an empty table: no region is placed in it.
pub fn none() -> Region
    ensures { result ≡ no_region }
{
    Region {
        placed: false,
        owner: 0,
        rectangle: Rectangle {
            column: 0,
            row: 0,
            columns: 0,
            rows: 0,
        },
    }
}

// The table of a layout with no region placed; the calls on it check the layout.
pub fn empty(layout: CubeLayout) -> RegionTable
    ensures { result ≡ empty_table layout }
{
    RegionTable {
        layout,
        slots: [none(); 16],
    }
}

// The table with one slot changed.
fn with_slot(mut table: RegionTable, slot: u32, region: Region) -> RegionTable
    requires { slot < 16 }
    ensures { result ≡ with_slot table slot region }
{
    table.slots[slot as usize] = region;
    table
}

// Places a region of an owner in an empty slot.
pub fn place(table: RegionTable, slot: u32, id: u32, rectangle: Rectangle) -> Outcome
    ensures answered { result.answer ≡ place_answer table slot id rectangle }
    ensures left { result.table ≡ place_table table slot id rectangle }
{
    let answer = rules::check_place(table, slot, id, rectangle);
    if answer.is_err() {
        return Outcome { answer, table };
    }
    let region = Region {
        placed: true,
        owner: id,
        rectangle,
    };
    let after = with_slot(table, slot, region);
    Outcome {
        answer,
        table: after,
    }
}

// What an edit answers and writes.
fn edit_box(
    table: RegionTable,
    slot: u32,
    id: u32,
    b: ElementBox,
    elements: &[i16],
    buffer: &mut [u8],
) -> Answer
    ensures answered { result ≡ edit_answer table slot id b elements.now (length buffer.old) }
    ensures left { buffer.new ≡ edit_buffer table slot id b elements.now buffer.old }
{
    let target = rules::find_box(table, slot, id, Part::Within(b))?;
    cube::write_box(table.layout, target, elements, buffer)
}

// Writes the elements of a box, counted from the corner of the region in a slot, and no other byte.
pub fn edit(
    table: RegionTable,
    slot: u32,
    id: u32,
    b: ElementBox,
    elements: &[i16],
    buffer: &mut [u8],
) -> Outcome
    ensures answered { result.answer ≡ edit_answer table slot id b elements.now (length buffer.old) }
    ensures kept { result.table ≡ table }
    ensures left { buffer.new ≡ edit_buffer table slot id b elements.now buffer.old }
{
    let answer = edit_box(table, slot, id, b, elements, buffer);
    Outcome { answer, table }
}

// What a read answers and fills.
fn read_box(
    table: RegionTable,
    slot: u32,
    id: u32,
    b: ElementBox,
    buffer: &[u8],
    elements: &mut [i16],
) -> Answer
    ensures answered { result ≡ read_answer table slot id b (length elements.old) (length buffer.now) }
    ensures left { elements.new ≡ read_elements table slot id b buffer.now elements.old }
{
    let source = rules::find_box(table, slot, id, Part::Within(b))?;
    cube::read_box(table.layout, source, buffer, elements)
}

// Reads the elements of a box, counted from the corner of the region in a slot.
pub fn read(
    table: RegionTable,
    slot: u32,
    id: u32,
    b: ElementBox,
    buffer: &[u8],
    elements: &mut [i16],
) -> Outcome
    ensures answered { result.answer ≡ read_answer table slot id b (length elements.old) (length buffer.now) }
    ensures kept { result.table ≡ table }
    ensures left { elements.new ≡ read_elements table slot id b buffer.now elements.old }
{
    let answer = read_box(table, slot, id, b, buffer, elements);
    Outcome { answer, table }
}

// What a release answers and writes.
fn clear_region(table: RegionTable, slot: u32, id: u32, buffer: &mut [u8]) -> Answer
    ensures answered { result ≡ release_answer table slot id (length buffer.old) }
    ensures left { buffer.new ≡ release_buffer table slot id buffer.old }
{
    let all = rules::find_box(table, slot, id, Part::Whole)?;
    cube::clear_box(table.layout, all, buffer)
}

// Sets every element of the region in a slot to 0, and no other byte, and empties the slot.
pub fn release(table: RegionTable, slot: u32, id: u32, buffer: &mut [u8]) -> Outcome
    ensures answered { result.answer ≡ release_answer table slot id (length buffer.old) }
    ensures handed { result.table ≡ release_table table slot id (length buffer.old) }
    ensures left { buffer.new ≡ release_buffer table slot id buffer.old }
{
    let answer = clear_region(table, slot, id, buffer);
    if answer.is_err() {
        return Outcome { answer, table };
    }
    let emptied = with_slot(table, slot, none());
    Outcome {
        answer,
        table: emptied,
    }
}

// The byte at which an element begins, counted from the corner of the region in a slot.
pub fn position(
    table: RegionTable,
    slot: u32,
    id: u32,
    channel: u32,
    row: u32,
    column: u32,
) -> Quantity
    ensures { result ≡ region_position table slot id channel row column }
{
    let one = ElementBox {
        channel,
        row,
        column,
        channels: 1,
        rows: 1,
        columns: 1,
    };
    let found = rules::find_box(table, slot, id, Part::Within(one))?;
    cube::position(table.layout, found.channel, found.row, found.column)
}

// How many elements the region in a slot has.
pub fn count(table: RegionTable, slot: u32, id: u32) -> Quantity
    ensures { result ≡ region_count table slot id }
{
    let whole = rules::find_box(table, slot, id, Part::Whole)?;
    let elements = whole.channels as u64 * whole.rows as u64 * whole.columns as u64;
    Ok(elements)
}

// The box of the cube that the region in a slot is. Checks 1 to 4, 8, 25, 9.
pub fn find(table: RegionTable, slot: u32, id: u32) -> Result<ElementBox, Fault>
    ensures { result ≡ region_found table slot id }
{
    rules::find_box(table, slot, id, Part::Whole)
}
