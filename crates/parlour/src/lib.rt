// A camera's picture painted into a region of a cube: the types of its conversion and of its outcome (change requests K3, K5). The call is in
// `parlour_calls`.
#![tactic(auto)]

use refusal::Quantity;
use regions::RegionTable;

// What every component is converted with: (d - offset) * scale over 2^shift, to the nearest, to the cube's precision (the scope paper's offset, SF and shift).
#[derive(Clone, Copy)]
pub struct Conversion {
    pub offset: i16,
    pub scale: i16,
    pub shift: u32,
}

// How many components were held at a limit, or refused with the index at fault; and the table as it came.
#[derive(Clone, Copy)]
pub struct PaintOutcome {
    pub held: Quantity,
    pub table: RegionTable,
}
