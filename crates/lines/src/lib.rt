// Lines of a text, and what stands in a line: the types of lines and numbers (scope paper, "The sheet program"). The calls are in `lines_calls`.
#![tactic(auto)]

// A line: its length, held at 121, and its first 120 bytes. The C interface holds a text so (olsketina_script_*), and there is no heap.
#[derive(Clone, Copy)]
pub struct Line {
    pub length: u32,
    pub bytes: [u8; 120],
}

// How many lines have ended, and the line in progress.
#[derive(Clone, Copy)]
pub struct Lines {
    pub count: u64,
    pub line: Line,
}

// The lines after a part of the input, how many bytes of the part were read, and whether the last of them ended the line.
#[derive(Clone, Copy)]
pub struct Collected {
    pub lines: Lines,
    pub read: usize,
    pub ended: bool,
}

// The number that a text is: whether a minus stands before it, and its digits' value.
#[derive(Clone, Copy)]
pub struct Number {
    pub minus: bool,
    pub value: u32,
}

// Numbers, the first `count` of the values, the others 0. A table in place of a Vec: this library has no heap.
#[derive(Clone, Copy)]
pub struct Numbers {
    pub count: usize,
    pub values: [u32; 7],
}
