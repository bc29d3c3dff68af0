// Reading: the rows of a strip of columns, band by band, and the strips of a block.
ghost use Rattle.std.specs.Prelude.{◌≡◌, ◌+◌, ◌-◌, ◌*◌, ◌≤◌, length};
ghost use Rattle.columns.specs.Columns.{bytes_set, columns, column_element, tile_element, rows_read};

use crate::place::{ElementSize, Place};
use crate::tiles;

// One row of elements, one from each column.
fn read_row(place: Place, buffer: &[u8], count: usize, elements: &mut [i16])
    requires row_in { place.from + count ≤ length elements.old }
    requires columns_in { place.at + place.stride * count + place.size.bytes ≤ length buffer.now + place.stride }
    ensures { elements.new ≡ bytes_set (column_element place.size.bytes buffer.now place.at place.stride 0) count place.from elements.old }
{
    for i in 0..count {
        let p = place.at + place.stride * i;
        let x = if place.size.bytes == 1 {
            elements::from_byte(buffer[p])
        } else {
            elements::from_bytes(buffer[p], buffer[p + 1])
        };
        elements[place.from + i] = x;
    }
}

// The rows of a tile. The size is told as a number, so that the built loops over a strip's columns test none.
fn split_band(place: Place, tile: &[u16; 256], count: usize, elements: &mut [i16])
    requires sizes { (count ≤ 64) × (count ≤ place.plane) }
    requires rows_in { place.from + 4 * ((3 - place.size.bytes) * place.plane) + count ≤ length elements.old + place.plane }
    ensures { elements.new ≡ columns (tile_element place.size.bytes tile.now) count (4 * (3 - place.size.bytes)) place.from place.plane elements.old }
{
    if place.size.bytes == 1 {
        let one = ElementSize { bytes: 1 };
        tiles::split_tile(one, tile, count, elements, place.from, place.plane);
        return;
    }
    let two = ElementSize { bytes: 2 };
    tiles::split_tile(two, tile, count, elements, place.from, place.plane);
}

// The next rows: as many as fill eight bytes of a column, or else one; gives how many.
fn read_some(
    place: Place,
    buffer: &[u8],
    rows: u32,
    count: usize,
    tile: &mut [u16; 256],
    elements: &mut [i16],
) -> u32
    requires sizes { (1 ≤ rows) × (count ≤ 64) × (length tile.old ≡ 256) × (count ≤ place.plane) }
    requires rows_in { place.from + rows * place.plane + count ≤ length elements.old + place.plane }
    requires columns_in { place.at + place.stride * count + rows * place.size.bytes ≤ length buffer.now + place.stride }
    ensures kept { length tile.new ≡ 256 }
    ensures some { (1 ≤ result) × (result ≤ rows) }
    ensures read { elements.new ≡ rows_read place.size.bytes buffer.now place.at place.stride result count place.from place.plane elements.old }
{
    let unit = 3 - place.size.bytes;
    if 4 * unit <= rows {
        tiles::read_tile(place, buffer, count, tile);
        split_band(place, tile, count, elements);
        return 4 * unit;
    }
    read_row(place, buffer, count, elements);
    1
}

// Rows of elements read from at most 64 columns. A function of its own in the built code too: inlined, its loops lack registers.
#[inline(never)]
fn read_rows(place: Place, buffer: &[u8], rows: u32, count: usize, elements: &mut [i16])
    requires sizes { (1 ≤ count) × (count ≤ 64) × (rows * place.size.bytes ≤ 4294967295) × (count ≤ place.plane) }
    requires rows_in { place.from + rows * place.plane + count ≤ length elements.old + place.plane }
    requires columns_in { place.at + place.stride * count + rows * place.size.bytes ≤ length buffer.now + place.stride }
    ensures { elements.new ≡ rows_read place.size.bytes buffer.now place.at place.stride rows count place.from place.plane elements.old }
{
    let mut tile = [0u16; 256];
    let mut r: u32 = 0;
    // A while: it goes on by as many rows as read_some read.
    while r < rows {
        let below = Place {
            from: place.from + r as usize * place.plane,
            at: place.at + (r * place.size.bytes) as usize,
            ..place
        };
        let got = read_some(below, buffer, rows - r, count, &mut tile, elements);
        r += got;
    }
}

// Strips of 64 columns, all rows of a strip before the next strip.
pub(crate) fn read_strips(
    place: Place,
    buffer: &[u8],
    rows: u32,
    count: usize,
    elements: &mut [i16],
)
    requires sizes { (1 ≤ rows) × (1 ≤ count) × (rows * place.size.bytes ≤ 4294967295) × (count ≤ place.plane) }
    requires rows_in { place.from + rows * place.plane + count ≤ length elements.old + place.plane }
    requires columns_in { (rows * place.size.bytes ≤ place.stride) × (place.at + place.stride * count + rows * place.size.bytes ≤ length buffer.now + place.stride) }
    ensures { elements.new ≡ rows_read place.size.bytes buffer.now place.at place.stride rows count place.from place.plane elements.old }
{
    if place.stride == 1 {
        let line = Place {
            size: ElementSize { bytes: 1 },
            stride: 1,
            ..place
        };
        read_row(line, buffer, count, elements);
        return;
    }
    if (place.stride == 2) & (place.size.bytes == 2) {
        let line = Place {
            size: ElementSize { bytes: 2 },
            stride: 2,
            ..place
        };
        read_row(line, buffer, count, elements);
        return;
    }
    let mut done: usize = 0;
    // A while: it goes on by a strip, not by one.
    while done < count {
        let columns = (count - done).min(64);
        let behind = Place {
            from: place.from + done,
            at: place.at + place.stride * done,
            ..place
        };
        read_rows(behind, buffer, rows, columns, elements);
        done += columns;
    }
}
