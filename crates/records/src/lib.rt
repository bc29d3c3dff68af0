// One line of a sheet, read as a record (scope paper, "The sheet program"; change request K1).
#![tactic(auto)]

ghost use Rattle.std.specs.Prelude.{◌≡◌};
ghost use Rattle.lines.specs.Texts.{fields_of};
ghost use Rattle.records.specs.Records.{frame_of, stall_of, cell_of, leave_of, is_named, by_word, by_fields, line_record, record_of};

use layout::CubeLayout;
use lines::{Line, Numbers};

// A record: a cube's layout; a region's slot, its rectangle, and its owner's id; an element of a region, and the id; a region that is left, by its slot
// and the id. A line that is no record is None.
#[derive(Clone, Copy)]
pub enum Record {
    Frame(CubeLayout),
    Stall {
        slot: u32,
        column: u32,
        row: u32,
        columns: u32,
        rows: u32,
        id: u32,
    },
    Cell {
        slot: u32,
        channel: u32,
        row: u32,
        column: u32,
        id: u32,
    },
    Leave {
        slot: u32,
        id: u32,
    },
}

// A cube's layout.
fn frame(ns: Numbers) -> Record
    ensures { result ≡ frame_of ns }
{
    let [width, height, channels, precision, line, surface, start] = ns.values;
    Record::Frame(CubeLayout {
        width,
        height,
        channels,
        precision,
        line,
        surface,
        start,
    })
}

// A region.
fn stall(ns: Numbers) -> Record
    ensures { result ≡ stall_of ns }
{
    let [slot, column, row, columns, rows, id, _] = ns.values;
    Record::Stall {
        slot,
        column,
        row,
        columns,
        rows,
        id,
    }
}

// An element of a region.
fn cell(ns: Numbers) -> Record
    ensures { result ≡ cell_of ns }
{
    let [slot, channel, row, column, id, ..] = ns.values;
    Record::Cell {
        slot,
        channel,
        row,
        column,
        id,
    }
}

// A region that is left.
fn leave(ns: Numbers) -> Record
    ensures { result ≡ leave_of ns }
{
    let [slot, id, ..] = ns.values;
    Record::Leave { slot, id }
}

// Whether a word is a name, and so many numbers stand behind it.
#[tactic(auto, unfolding(crate::specs::Records::is_named))]
fn is_named(word: &[u8], ns: Numbers, name: &[u8], count: usize) -> bool
    ensures { result ≡ is_named word.now ns name.now count }
{
    ns.count == count && lines_calls::same(word, name)
}

// The record of a word and the numbers behind it.
#[tactic(auto, unfolding(crate::specs::Records::by_word))]
fn by_word(word: &[u8], ns: Numbers) -> Option<Record>
    ensures { result ≡ by_word word.now ns }
{
    if is_named(word, ns, b"frame", 7) {
        Some(frame(ns))
    } else if is_named(word, ns, b"stall", 6) {
        Some(stall(ns))
    } else if is_named(word, ns, b"cell", 5) {
        Some(cell(ns))
    } else if is_named(word, ns, b"leave", 2) {
        Some(leave(ns))
    } else {
        None
    }
}

// The record of a text, by its fields.
fn by_fields(text: &[u8]) -> Option<Record>
    ensures { result ≡ by_fields (fields_of text.now) }
{
    let (word, rest) = text.split_at(lines_calls::part_length(text, b'\t'));
    by_word(word, lines_calls::read_numbers(rest)?)
}

// The record of a collected line.
#[tactic(auto, unfolding(crate::specs::Records::line_record, lines::specs::Collecting::line_text))]
pub fn of_line(line: Line) -> Option<Record>
    ensures { result ≡ line_record line }
{
    if !lines_calls::whole(line) {
        return None;
    }
    by_fields(&line.bytes[..line.length as usize])
}

// The record of a line, its newline not counted.
pub fn read(line: &[u8]) -> Option<Record>
    ensures { result ≡ record_of line.now }
{
    of_line(lines_calls::add(lines_calls::empty(), line))
}
