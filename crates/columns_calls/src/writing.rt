// Writing: the rows of a strip of columns, band by band, and the strips of a block.
ghost use Rattle.std.specs.Prelude.{◌≡◌, ◌+◌, ◌-◌, ◌*◌, ◌≤◌, length};
ghost use Rattle.columns.specs.Columns.{columns, column_byte, listed, rows_written};

use crate::place::{ElementSize, Place};
use crate::tiles;

// One unit of each column.
fn write_unit(place: Place, elements: &[i16], count: usize, buffer: &mut [u8])
    requires rows_in { place.from + (3 - place.size.bytes) * place.plane + count ≤ length elements.now + place.plane }
    requires columns_in { (2 ≤ place.stride) × (place.at + place.stride * count + 2 ≤ length buffer.old + place.stride) }
    ensures { buffer.new ≡ columns (column_byte place.size.bytes (listed elements.now) place.from place.plane) 2 count place.at place.stride buffer.old }
{
    for i in 0..count {
        let u = tiles::unit(place.size, elements, place.from + i, place.plane);
        tiles::put_unit(u, buffer, place.at + place.stride * i);
    }
}

// One byte of each column.
fn write_byte(place: Place, elements: &[i16], count: usize, buffer: &mut [u8])
    requires rows_in { place.from + count ≤ length elements.now }
    requires columns_in { (1 ≤ place.stride) × (place.at + place.stride * count + 1 ≤ length buffer.old + place.stride) }
    ensures { buffer.new ≡ columns (column_byte 1 (listed elements.now) place.from 0) 1 count place.at place.stride buffer.old }
{
    for i in 0..count {
        buffer[place.at + place.stride * i] = elements::low_byte(elements[place.from + i]);
    }
}

// The next rows: as many as fill eight bytes of a column, or else four, or two, or one; gives how many.
fn write_some(
    place: Place,
    elements: &[i16],
    rows: u32,
    count: usize,
    tile: &mut [u16; 256],
    buffer: &mut [u8],
) -> u32
    requires sizes { (1 ≤ rows) × (4 ≤ rows * place.size.bytes → count ≤ 128) × (8 ≤ rows * place.size.bytes → count ≤ 64) × (length tile.old ≡ 256) }
    requires rows_in { place.from + rows * place.plane + count ≤ length elements.now + place.plane }
    requires columns_in { (rows * place.size.bytes ≤ place.stride) × (place.at + place.stride * count + rows * place.size.bytes ≤ length buffer.old + place.stride) }
    ensures kept { length tile.new ≡ 256 }
    ensures some { (1 ≤ result) × (result ≤ rows) }
    ensures written { buffer.new ≡ rows_written place.size.bytes (listed elements.now) place.from place.plane result count place.at place.stride buffer.old }
{
    let unit = 3 - place.size.bytes;
    if 4 * unit <= rows {
        tiles::join::<4>(place, elements, count, tile);
        tiles::write_tile::<4>(place, tile, count, buffer);
        return 4 * unit;
    }
    if 2 * unit <= rows {
        tiles::join::<2>(place, elements, count, tile);
        tiles::write_tile::<2>(place, tile, count, buffer);
        return 2 * unit;
    }
    if unit <= rows {
        write_unit(place, elements, count, buffer);
        return unit;
    }
    write_byte(place, elements, count, buffer);
    1
}

// Rows of elements written in as many columns as a strip has. A function of its own in the built code too: inlined, its loops lack registers.
#[inline(never)]
fn write_rows(place: Place, elements: &[i16], rows: u32, count: usize, buffer: &mut [u8])
    requires sizes { (1 ≤ count) × (4 ≤ rows * place.size.bytes → count ≤ 128) × (8 ≤ rows * place.size.bytes → count ≤ 64) × (rows * place.size.bytes ≤ 4294967295) }
    requires rows_in { place.from + rows * place.plane + count ≤ length elements.now + place.plane }
    requires columns_in { (1 ≤ place.stride) × (rows * place.size.bytes ≤ place.stride) × (place.at + place.stride * count + rows * place.size.bytes ≤ length buffer.old + place.stride) }
    ensures { buffer.new ≡ rows_written place.size.bytes (listed elements.now) place.from place.plane rows count place.at place.stride buffer.old }
{
    let mut tile = [0u16; 256];
    let mut r: u32 = 0;
    // A while: it goes on by as many rows as write_some wrote.
    while r < rows {
        let below = Place {
            from: place.from + r as usize * place.plane,
            at: place.at + (r * place.size.bytes) as usize,
            ..place
        };
        let k = write_some(below, elements, rows - r, count, &mut tile, buffer);
        r += k;
    }
}

// Strips of columns, all rows of a strip before the next strip; elements that lie one behind another in one pass. A strip has as many columns as
// a tile has room for: 64 of a band, or 128 of half a band; fewer bytes need no tile.
pub(crate) fn write_strips(
    place: Place,
    elements: &[i16],
    rows: u32,
    count: usize,
    buffer: &mut [u8],
)
    requires sizes { (1 ≤ rows) × (1 ≤ count) × (rows * place.size.bytes ≤ 4294967295) }
    requires rows_in { place.from + rows * place.plane + count ≤ length elements.now + place.plane }
    requires columns_in { (1 ≤ place.stride) × (rows * place.size.bytes ≤ place.stride) × (place.at + place.stride * count + rows * place.size.bytes ≤ length buffer.old + place.stride) }
    ensures { buffer.new ≡ rows_written place.size.bytes (listed elements.now) place.from place.plane rows count place.at place.stride buffer.old }
{
    if place.stride == 1 {
        let line = Place { stride: 1, ..place };
        write_byte(line, elements, count, buffer);
        return;
    }
    if (place.stride == 2) & (place.size.bytes == 2) {
        let line = Place {
            size: ElementSize { bytes: 2 },
            stride: 2,
            ..place
        };
        write_unit(line, elements, count, buffer);
        return;
    }
    let bytes = rows * place.size.bytes;
    let strip = if bytes < 4 {
        count
    } else if bytes < 8 {
        128
    } else {
        64
    };
    let mut done: usize = 0;
    // A while: it goes on by a strip, not by one.
    while done < count {
        let columns = strip.min(count - done);
        let behind = Place {
            from: place.from + done,
            at: place.at + place.stride * done,
            ..place
        };
        write_rows(behind, elements, rows, columns, buffer);
        done += columns;
    }
}
