// A sheet's input fed in parts, and the text that it prints.
ghost use Rattle.std.specs.Prelude.{◌≡◌, pos};
ghost use Rattle.lines.specs.Collecting.{written};
ghost use Rattle.script.specs.Feed.{start_sheet, fed, finished};
ghost use Rattle.script.specs.Output.{header, fields_text};
ghost use Rattle.olsketina.specs.Sheets.{sheet_from, with_sheet, row_words};

use crate::sheet_words;
use crate::words::{ROW_WORDS, STATE_WORDS, TEXT_BYTES};
use lines::Line;
use script::Fed;

// script_calls::begin
#[unsafe(no_mangle)]
pub extern "C" fn olsketina_script_begin(
    state: &mut [u32; STATE_WORDS],
    text: &mut [u8; TEXT_BYTES],
)
    ensures words { state.new ≡ with_sheet start_sheet state.old }
    ensures line { text.new ≡ start_sheet.lines.line.bytes }
{
    let sheet = script_calls::begin();
    // A variable: an array out of a field is not proved where it is stored straight.
    let empty = sheet.lines.line.bytes;
    *text = empty;
    sheet_words::write_sheet(state, sheet);
}

// Writes what a call gave: the state, its text and the row.
fn write_fed(
    given: Fed,
    state: &mut [u32; STATE_WORDS],
    text: &mut [u8; TEXT_BYTES],
    row: &mut [u64; ROW_WORDS],
)
    ensures words { state.new ≡ with_sheet given.sheet state.old }
    ensures line { text.new ≡ given.sheet.lines.line.bytes }
    ensures ended { row.new ≡ row_words given.given }
{
    // A variable, as in olsketina_script_begin.
    let bytes = given.sheet.lines.line.bytes;
    *text = bytes;
    *row = sheet_words::row_words(given.given);
    sheet_words::write_sheet(state, given.sheet);
}

// script_calls::feed
#[unsafe(no_mangle)]
pub extern "C" fn olsketina_script_feed(
    state: &mut [u32; STATE_WORDS],
    text: &mut [u8; TEXT_BYTES],
    part: &[u8],
    row: &mut [u64; ROW_WORDS],
) -> usize
    ensures read { result ≡ (fed (sheet_from state.old text.old) part.now).read }
    ensures words { state.new ≡ with_sheet (fed (sheet_from state.old text.old) part.now).sheet state.old }
    ensures line { text.new ≡ (fed (sheet_from state.old text.old) part.now).sheet.lines.line.bytes }
    ensures ended { row.new ≡ row_words (fed (sheet_from state.old text.old) part.now).given }
{
    let before = sheet_words::sheet_of(state, text);
    let f = script_calls::feed(before, part);
    write_fed(f, state, text, row);
    f.read
}

// script_calls::finish
#[unsafe(no_mangle)]
pub extern "C" fn olsketina_script_finish(
    state: &mut [u32; STATE_WORDS],
    text: &mut [u8; TEXT_BYTES],
    row: &mut [u64; ROW_WORDS],
)
    ensures words { state.new ≡ with_sheet (finished (sheet_from state.old text.old)).sheet state.old }
    ensures line { text.new ≡ (finished (sheet_from state.old text.old)).sheet.lines.line.bytes }
    ensures ended { row.new ≡ row_words (finished (sheet_from state.old text.old)).given }
{
    let before = sheet_words::sheet_of(state, text);
    let f = script_calls::finish(before);
    write_fed(f, state, text, row);
}

// Writes a text; gives its length.
fn write_text(line: Line, text: &mut [u8; TEXT_BYTES]) -> u32
    ensures length { result ≡ line.length }
    ensures bytes { text.new ≡ line.bytes }
{
    // A variable, as in olsketina_script_begin.
    let written = line.bytes;
    *text = written;
    line.length
}

// script_calls::header_text
#[unsafe(no_mangle)]
pub extern "C" fn olsketina_script_header_text(text: &mut [u8; TEXT_BYTES]) -> u32
    ensures length { result ≡ (written header).length }
    ensures bytes { text.new ≡ (written header).bytes }
{
    let line = script_calls::header_text();
    write_text(line, text)
}

// script_calls::fields_text, of a value that is not negative
#[unsafe(no_mangle)]
pub extern "C" fn olsketina_script_row_text(
    line: u64,
    answer: u32,
    value: u64,
    text: &mut [u8; TEXT_BYTES],
) -> u32
    ensures length { result ≡ (written (fields_text line answer (pos value))).length }
    ensures bytes { text.new ≡ (written (fields_text line answer (pos value))).bytes }
{
    let fields = script_calls::fields_text(line, answer, false, value);
    write_text(fields, text)
}
