// Blocks of columns written and read, and bytes cleared: the one loop of cubes and weights, on the definitions of `columns`. Eight bytes of a column
// are four units of two bytes, gathered in a tile of at most 64 columns, then written.
#![tactic(auto)]

mod place;
mod reading;
mod tiles;
mod writing;

ghost use Rattle.std.specs.Prelude.{◌≡◌, ◌≤◌};
ghost use Rattle.columns.specs.Blocks.{block_fits, block_written, block_read, cleared};

use columns::ColumnBlock;
use place::{ElementSize, Place};

// Whether a block's elements are among those given, and its columns, one behind another, in so many bytes.
fn fits(block: ColumnBlock, given: usize, len: usize) -> bool
    ensures { result ≡ block_fits block given len }
{
    let ColumnBlock {
        size,
        rows,
        count,
        from,
        plane,
        at,
        stride,
    } = block;
    if (1 <= size) & (size <= 2) & (1 <= rows) & (1 <= count) & (from <= given) & (at <= len) {
        let deep = rows as usize * size as usize;
        let read = (rows - 1) as usize * plane as usize + count as usize;
        let wide = (count - 1) as usize * stride as usize + deep;
        return (deep <= stride as usize) & (read <= given - from) & (wide <= len - at);
    }
    false
}

// Where a block lies.
fn place_of(block: ColumnBlock) -> Place
    requires { (1 ≤ block.size) × (block.size ≤ 2) }
    ensures { (result.size.bytes ≡ block.size) × (result.from ≡ block.from) × (result.plane ≡ block.plane) × (result.at ≡ block.at) × (result.stride ≡ block.stride) }
{
    Place {
        size: ElementSize { bytes: block.size },
        from: block.from,
        plane: block.plane as usize,
        at: block.at,
        stride: block.stride as usize,
    }
}

// Writes the columns of a block; a block that does not fit writes nothing.
pub fn write(block: ColumnBlock, elements: &[i16], buffer: &mut [u8])
    ensures { buffer.new ≡ block_written block elements.now buffer.old }
{
    if fits(block, elements.len(), buffer.len()) {
        let count = block.count as usize;
        writing::write_strips(place_of(block), elements, block.rows, count, buffer);
    }
}

// Reads the rows of a block; a block that does not fit, or whose rows meet, reads nothing.
pub fn read(block: ColumnBlock, buffer: &[u8], elements: &mut [i16])
    ensures { elements.new ≡ block_read block buffer.now elements.old }
{
    let fit = fits(block, elements.len(), buffer.len());
    if fit & (block.count <= block.plane) {
        let count = block.count as usize;
        reading::read_strips(place_of(block), buffer, block.rows, count, elements);
    }
}

// Sets the bytes from `at` on, `count` of them as far as they are there, to 0.
pub fn clear(at: usize, count: usize, buffer: &mut [u8])
    ensures { buffer.new ≡ cleared at count buffer.old }
{
    let len = buffer.len();
    if at < len {
        let end = at + count.min(len - at);
        buffer[at..end].fill(0);
    }
}
