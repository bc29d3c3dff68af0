// Tiles: two bytes of a column are a unit; four units of each of at most 64 columns, or two of at most 128, are gathered in a tile, so that rows of
// elements become columns of bytes and columns become rows.
ghost use Rattle.std.specs.Prelude.{◌≡◌, ℕ, ◌+◌, ◌-◌, ◌*◌, ◌/◌, ◌%◌, ◌≤◌, ◌<◌, length, get_or, set};
ghost use Rattle.columns.specs.Columns.{columns, column_unit, tile_byte, tile_element, listed, Unit_is, unit_element, unit_row};

use crate::place::{ElementSize, Place};

// Two bytes of a column: those of one two-byte element, or of two one-byte elements.
pub(crate) fn unit(size: ElementSize, elements: &[i16], at: usize, plane: usize) -> u16
    requires { at + (3 - size.bytes) * plane < length elements.now + plane }
    ensures { result ≡ column_unit size.bytes (listed elements.now) at plane 0 0 }
{
    let x = elements[at];
    if size.bytes == 1 {
        let y = elements[at + plane];
        return elements::word(x) % 256 + 256 * (elements::word(y) % 256);
    }
    elements::word(x)
}

// The first UNITS units of each column.
pub(crate) fn join<const UNITS: usize>(
    place: Place,
    elements: &[i16],
    count: usize,
    tile: &mut [u16; 256],
)
    requires sizes { (1 ≤ UNITS) × (UNITS * count ≤ 256) × (length tile.old ≡ 256) }
    requires rows_in { place.from + UNITS * ((3 - place.size.bytes) * place.plane) + count ≤ length elements.now + place.plane }
    ensures kept { length tile.new ≡ 256 }
    ensures joined { (m : ℕ) → m < UNITS * count → get_or tile.new m 0 ≡ column_unit place.size.bytes (listed elements.now) place.from place.plane (m / UNITS) (m % UNITS) }
{
    // Two planes or one, chosen: multiplied out, the built loop begins with a product for each row, which strips of few columns feel.
    let step = if place.size.bytes == 1 {
        2 * place.plane
    } else {
        place.plane
    };
    for i in 0..count {
        for j in 0..UNITS {
            let at = place.from + i + j * step;
            tile[UNITS * i + j] = unit(place.size, elements, at, place.plane);
        }
    }
}

// A unit written, low byte first.
pub(crate) fn put_unit(u: u16, buffer: &mut [u8], p: usize)
    requires { p + 2 ≤ length buffer.old }
    ensures { buffer.new ≡ set (set buffer.old p (u % 256)) (p + 1) (u / 256) }
{
    buffer[p] = (u % 256) as u8;
    buffer[p + 1] = (u / 256) as u8;
}

// The units of a tile, UNITS in each column.
pub(crate) fn write_tile<const UNITS: usize>(
    place: Place,
    tile: &[u16; 256],
    count: usize,
    buffer: &mut [u8],
)
    requires { (UNITS * count ≤ 256) × (2 * UNITS ≤ place.stride) × (place.at + place.stride * count + 2 * UNITS ≤ length buffer.old + place.stride) }
    ensures { buffer.new ≡ columns (tile_byte UNITS tile.now) (2 * UNITS) count place.at place.stride buffer.old }
{
    for i in 0..count {
        for j in 0..UNITS {
            let u = tile[UNITS * i + j];
            let p = place.at + place.stride * i + 2 * j;
            put_unit(u, buffer, p);
        }
    }
}

// The unit at p, low byte first.
fn unit_at(buffer: &[u8], p: usize) -> u16
    requires { p + 2 ≤ length buffer.now }
    ensures { Unit_is buffer.now p result }
{
    buffer[p] as u16 + 256 * (buffer[p + 1] as u16)
}

// The four units of each column of eight bytes.
pub(crate) fn read_tile(place: Place, buffer: &[u8], count: usize, tile: &mut [u16; 256])
    requires { (count ≤ 64) × (length tile.old ≡ 256) × (place.at + place.stride * count + 8 ≤ length buffer.now + place.stride) }
    ensures kept { length tile.new ≡ 256 }
    ensures gathered { (m : ℕ) → m < 4 * count → Unit_is buffer.now (place.at + place.stride * (m / 4) + 2 * (m % 4)) (get_or tile.new m 0) }
{
    for i in 0..count {
        for j in 0..4 {
            tile[4 * i + j] = unit_at(buffer, place.at + place.stride * i + 2 * j);
        }
    }
}

// A unit's elements, `plane` apart.
fn split_one(size: ElementSize, u: u16, elements: &mut [i16], at: usize, plane: usize)
    requires { (1 ≤ plane) × (at + (3 - size.bytes) * plane < length elements.old + plane) }
    ensures { elements.new ≡ columns (λ (r : ℕ) (i : ℕ). unit_element size.bytes u r) 1 (3 - size.bytes) at plane elements.old }
{
    if size.bytes == 1 {
        let x = elements::from_byte((u % 256) as u8);
        let y = elements::from_byte((u / 256) as u8);
        elements[at] = x;
        elements[at + plane] = y;
        return;
    }
    let x = elements::from_bytes((u % 256) as u8, (u / 256) as u8);
    elements[at] = x;
}

// The rows of unit j of each column of a tile, from element `from` on.
pub(crate) fn split_unit(
    size: ElementSize,
    tile: &[u16; 256],
    j: usize,
    count: usize,
    elements: &mut [i16],
    from: usize,
    plane: usize,
)
    requires sizes { (j < 4) × (count ≤ 64) × (count ≤ plane) }
    requires rows_in { from + (3 - size.bytes) * plane + count ≤ length elements.old + plane }
    ensures { elements.new ≡ columns (unit_row size.bytes tile.now j) count (3 - size.bytes) from plane elements.old }
{
    for i in 0..count {
        split_one(size, tile[4 * i + j], elements, from + i, plane);
    }
}

// The rows of all units of each column of a tile, from element `from` on. Built into its callers, for the size that each tells.
#[inline(always)]
pub(crate) fn split_tile(
    size: ElementSize,
    tile: &[u16; 256],
    count: usize,
    elements: &mut [i16],
    from: usize,
    plane: usize,
)
    requires sizes { (count ≤ 64) × (count ≤ plane) }
    requires rows_in { from + 4 * ((3 - size.bytes) * plane) + count ≤ length elements.old + plane }
    ensures { elements.new ≡ columns (tile_element size.bytes tile.now) count (4 * (3 - size.bytes)) from plane elements.old }
{
    let step = (3 - size.bytes) as usize * plane;
    for j in 0..4 {
        split_unit(size, tile, j, count, elements, from + j * step, plane);
    }
}
