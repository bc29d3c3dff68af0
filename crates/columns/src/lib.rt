// Columns: rows of elements that lie `plane` apart are written one element of each row after another, `stride` bytes from column to column,
// and read back (scope paper, "Cells and cubes" and "Weights": the one form of both). The calls are in `columns_calls`.
#![tactic(auto)]

// Rows of elements as columns of bytes: row r has `count` elements from element `from + r·plane` on; column i has the `rows` elements of `size`
// bytes each from byte `at + i·stride` on.
#[derive(Clone, Copy)]
pub struct ColumnBlock {
    pub size: u32,
    pub rows: u32,
    pub count: u32,
    pub from: usize,
    pub plane: u32,
    pub at: usize,
    pub stride: u32,
}
