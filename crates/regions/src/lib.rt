// Sixteen regions of interest in one cube, edited side by side: the types (scope paper, "Stalls"). The calls are in `regions_calls`.
#![tactic(auto)]

use layout::CubeLayout;
use refusal::Answer;

// A rectangle of a cube's positions: its first column and row, its columns and rows.
#[derive(Clone, Copy)]
pub struct Rectangle {
    pub column: u32,
    pub row: u32,
    pub columns: u32,
    pub rows: u32,
}

// A slot of the table: whether a region is placed in it, the id of the region's owner, 1 to 65535 (the "pupil's number"), and its rectangle, over all
// channels (the scope paper's "stall"). The id and the rectangle of a slot that is not placed mean nothing.
// A flag, and no Option: the C interface hands back every word of a table as it came, those of a slot that is not placed too.
#[derive(Clone, Copy)]
pub struct Region {
    pub placed: bool,
    pub owner: u32,
    pub rectangle: Rectangle,
}

// A cube's layout and its sixteen slots (the scope paper's "desk").
#[derive(Clone, Copy)]
pub struct RegionTable {
    pub layout: CubeLayout,
    pub slots: [Region; 16],
}

// What a call answers, and the table handed back either way.
#[derive(Clone, Copy)]
pub struct Outcome {
    pub answer: Answer,
    pub table: RegionTable,
}
