// A sheet's state and rows as words.
ghost use Rattle.std.specs.Prelude.{◌≡◌, ◌+◌, ◌*◌};
ghost use Rattle.olsketina.specs.Sheets.{sheet_from, with_sheet, row_words};

use crate::tables;
use crate::words::{ROW_WORDS, STATE_TABLE, STATE_WORDS, TEXT_BYTES};
use lines::{Line, Lines};
use script::{Desk, Row, Sheet};

// A number of 64 bits by its low and its high word.
fn joined(low: u32, high: u32) -> u64
    ensures { result ≡ low + 4294967296 * high }
{
    u64::from(low) + 4294967296 * u64::from(high)
}

// The state that words and text say.
#[tactic(auto, unfolding(crate::specs::Sheets::sheet_from))]
pub(crate) fn sheet_of(words: &[u32; STATE_WORDS], text: &[u8; TEXT_BYTES]) -> Sheet
    ensures { result ≡ sheet_from words.now text.now }
{
    Sheet {
        lines: Lines {
            count: joined(words[0], words[1]),
            line: Line {
                length: words[2],
                bytes: *text,
            },
        },
        desk: Desk {
            framed: words[3] != 0,
            table: tables::table_at(words, STATE_TABLE),
        },
    }
}

// Writes a state's words, without its text.
pub(crate) fn write_sheet(words: &mut [u32; STATE_WORDS], sheet: Sheet)
    ensures { words.new ≡ with_sheet sheet words.old }
{
    let old = words[3];
    words[0] = (sheet.lines.count % 4294967296) as u32;
    words[1] = (sheet.lines.count / 4294967296) as u32;
    words[2] = sheet.lines.line.length;
    words[3] = tables::flag_word(sheet.desk.framed, old);
    tables::write_table(words, STATE_TABLE, sheet.desk.table);
}

// The row of a line that ended: 1, its number, answer, index at fault and value; all 0 where none ended.
#[tactic(auto, unfolding(crate::specs::Sheets::row_words))]
pub(crate) fn row_words(given: Option<Row>) -> [u64; ROW_WORDS]
    ensures { result ≡ row_words given }
{
    match given {
        None => [0u64; ROW_WORDS],
        Some(row) => [
            1,
            row.line,
            u64::from(refusal::answer_code(row.answer)),
            refusal::fault_index(row.answer) as u64,
            row.value,
        ],
    }
}
