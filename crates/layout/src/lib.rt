// Feature cubes: the types of their layouts, boxes and bytes (scope paper, "Cells and cubes"). The calls are in `layout_calls`.
#![tactic(auto)]

// Sizes, precision code, strides and start of a packed cube (the scope paper's "frame").
#[derive(Clone, Copy)]
pub struct CubeLayout {
    pub width: u32,
    pub height: u32,
    pub channels: u32,
    pub precision: u32,
    pub line: u32,
    pub surface: u32,
    pub start: u32,
}

// The first channel, row and column of a box of elements, and how many of each.
#[derive(Clone, Copy)]
pub struct ElementBox {
    pub channel: u32,
    pub row: u32,
    pub column: u32,
    pub channels: u32,
    pub rows: u32,
    pub columns: u32,
}

// Whose a byte is: a byte of an element (channel, row, column, byte); a padding byte, past the last channel in its atom; in a gap between lines or
// surfaces; or outside, before the start or past the extent.
#[derive(Clone, Copy)]
pub enum ByteOwner {
    Element(u32, u32, u32, u32),
    Padding,
    Gap,
    Outside,
}
