// A walk over the atoms of a cube in scan order: columns fastest, then rows, then surfaces (change request K6). Its types; the calls are in
// `walk_calls`.
#![tactic(auto)]

// Where a walk stands, before its next atom. `start` of `walk_calls` gives the first one; any numbers are a walk.
#[derive(Clone, Copy)]
pub struct Walk {
    // the next atom: its byte position, and the raw index of its first element
    pub position: u64,
    pub index: u64,
    // what is left, the next atom counted: columns of its line, rows of its surface, and channels from its first one on; none: no atom is left
    pub columns: u64,
    pub rows: u64,
    pub channels: u64,
    // of the cube: its precision, the columns of a line, the rows of a surface, the elements of a channel
    pub precision: u64,
    pub width: u64,
    pub height: u64,
    pub plane: u64,
    // strides: bytes from the last atom of a line to the next line's first, bytes from the last atom of a surface to the next surface's first, and
    // elements between those two
    pub line: u64,
    pub surface: u64,
    pub group: u64,
}

// What is left behind an atom, and how many bytes and elements further on the next one begins.
#[derive(Clone, Copy)]
pub struct Stride {
    pub columns: u64,
    pub rows: u64,
    pub channels: u64,
    pub bytes: u64,
    pub elements: u64,
}

// What a step gives: the atom's byte position, or that none is left, the atom's bytes, and the walk behind it. Where none is left: bytes of 0, and the
// walk as it came.
#[derive(Clone, Copy)]
pub struct Step {
    pub atom: Option<u64>,
    pub bytes: [u8; 32],
    pub walk: Walk,
}
