// The sheet's input, fed in parts of any size, and its rows' text: the calls on the definitions of `script` (scope paper, "The sheet program").
#![tactic(auto)]

mod answers;

ghost use Rattle.std.specs.Prelude.{◌≡◌};
ghost use Rattle.script.specs.Feed.{start_sheet, line_fed, fed, finished};
ghost use Rattle.lines.specs.Digits.{signed};
ghost use Rattle.lines.specs.Collecting.{written};
ghost use Rattle.script.specs.Output.{header, fields_text, row_text, given_text};

use layout::CubeLayout;
use lines::Line;
use script::{Desk, Fed, Row, Sheet};

// The state at the beginning.
#[tactic(auto, unfolding(script::specs::Feed::start_sheet))]
pub fn begin() -> Sheet
    ensures { result ≡ start_sheet }
{
    let layout = CubeLayout {
        width: 0,
        height: 0,
        channels: 0,
        precision: 0,
        line: 0,
        surface: 0,
        start: 0,
    };
    Sheet {
        lines: lines_calls::begin(),
        desk: Desk {
            framed: false,
            table: regions_calls::empty(layout),
        },
    }
}

// The line in progress ends: its row, and the state after it.
fn end_line(sheet: Sheet, read: usize) -> Fed
    ensures { result ≡ line_fed sheet read }
{
    let item = records::of_line(sheet.lines.line);
    let lines = lines_calls::next(sheet.lines);
    let (answer, value, desk) = match answers::after_record(sheet.desk, item) {
        Ok(done) => (Ok(()), done.value, done.desk),
        Err(fault) => (Err(fault), 0, sheet.desk),
    };
    Fed {
        sheet: Sheet { lines, desk },
        read,
        given: Some(Row {
            line: lines.count,
            answer,
            value,
        }),
    }
}

// Reads a part of the input up to its first newline, or whole.
pub fn feed(sheet: Sheet, part: &[u8]) -> Fed
    ensures { result ≡ fed sheet part.now }
{
    let c = lines_calls::collect(sheet.lines, part);
    let sheet = Sheet {
        lines: c.lines,
        ..sheet
    };
    if c.ended {
        return end_line(sheet, c.read);
    }
    Fed {
        sheet,
        read: c.read,
        given: None,
    }
}

// The end of the input: a last line may lack its newline.
#[tactic(auto, unfolding(script::specs::Feed::finished))]
pub fn finish(sheet: Sheet) -> Fed
    ensures { result ≡ finished sheet }
{
    if sheet.lines.line.length == 0 {
        return Fed {
            sheet,
            read: 0,
            given: None,
        };
    }
    end_line(sheet, 0)
}

// ---- the text that a sheet prints
// The header.
pub fn header_text() -> Line
    ensures { result ≡ written header }
{
    lines_calls::add(lines_calls::empty(), b"line\tanswer\tvalue\n")
}

// A line's number, its answer and its value, which is negative if a minus is asked for.
pub fn fields_text(line: u64, answer: u32, minus: bool, value: u64) -> Line
    ensures { result ≡ written (fields_text line answer (signed minus value)) }
{
    let first = lines_calls::add_number(lines_calls::empty(), line);
    let second = lines_calls::add(first, b"\t");
    let third = lines_calls::add_number(second, answer as u64);
    let fourth = lines_calls::add(third, b"\t");
    let fifth = lines_calls::add_signed(fourth, minus, value);
    lines_calls::add(fifth, b"\n")
}

// A row: the answer by its number.
pub fn row_text(row: Row) -> Line
    ensures { result ≡ written (row_text row) }
{
    let code = refusal::answer_code(row.answer);
    fields_text(row.line, code, false, row.value)
}

// The row of a line that ended, or nothing.
#[tactic(auto, unfolding(script::specs::Output::given_text))]
pub fn given_text(given: Option<Row>) -> Line
    ensures { result ≡ written (given_text given) }
{
    match given {
        None => lines_calls::empty(),
        Some(row) => row_text(row),
    }
}
