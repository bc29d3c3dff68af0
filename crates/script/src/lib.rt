// The sheet: the types of its state and rows (scope paper, "The sheet program"). The calls are in `script_calls`.
#![tactic(auto)]

use lines::Lines;
use refusal::Answer;
use regions::RegionTable;

// What stands between two lines: whether a frame was accepted, and its region table.
// A flag, and no Option: the C interface hands back every word of a table as it came, before a frame too.
#[derive(Clone, Copy)]
pub struct Desk {
    pub framed: bool,
    pub table: RegionTable,
}

// The state between two parts of the input: the lines that ended and the one in progress, and the desk.
#[derive(Clone, Copy)]
pub struct Sheet {
    pub lines: Lines,
    pub desk: Desk,
}

// A line's number, its answer and its value, which is 0 if the line was refused.
// Two fields, and no Quantity: a row is printed as three columns, and the C interface has a word for each.
#[derive(Clone, Copy)]
pub struct Row {
    pub line: u64,
    pub answer: Answer,
    pub value: u64,
}

// The state after a part of the input, how many bytes of the part were read, and the row of a line that ended, if one did.
#[derive(Clone, Copy)]
pub struct Fed {
    pub sheet: Sheet,
    pub read: usize,
    pub given: Option<Row>,
}
