// The sheet program's reading and writing (scope paper, "The sheet program"): standard input to its end, and what the library gives to write, one text
// after another, or nothing where it is not to be shown. Of reading and writing themselves nothing is proved; what is given to `write` is promised by a
// checksum of its bytes.
#![tactic(auto)]

ghost use Rattle.std.specs.Prelude.{◌≡◌, min};
ghost use Rattle.lines.specs.Collecting.{line_text};
ghost use Rattle.lines.specs.Sums.{checksum};
ghost use Rattle.sheet_io.specs.Printing.{start_printed, part_printed, end_printed, Reading, Whole};

use lines::Line;
use script::Sheet;

// The descriptors of standard input and output.
const STDIN_FILENO: i32 = 0;

const STDOUT_FILENO: i32 = 1;

// The state after what was read, and the checksum of all bytes that were written.
#[derive(Clone, Copy)]
pub struct Printed {
    pub sheet: Sheet,
    pub sum: u64,
}

// How many bytes of a line of so many are kept.
fn kept(length: u32) -> usize
    ensures { result ≡ min length 120 }
{
    length.min(120) as usize
}

// Writes bytes if they are to be shown. A bool and no const parameter: the public calls below take it from callers that decide as they run.
fn show(shown: bool, text: &[u8]) {
    if shown {
        io::write_all(STDOUT_FILENO, text);
    }
}

// Writes a text if it is to be shown; the checksum after it.
fn write(shown: bool, sum: u64, text: Line) -> u64
    ensures { result ≡ checksum sum (line_text text) }
{
    let n = kept(text.length);
    show(shown, &text.bytes[..n]);
    lines_calls::summed(sum, &text.bytes[..n])
}

// Feeds a part of the input until all of it is read, and writes what each call gives.
pub fn feed_all(shown: bool, before: Printed, part: &[u8]) -> Printed
    ensures { result ≡ part_printed before part.now }
{
    let Printed { mut sheet, mut sum } = before;
    let mut from = 0;
    // A while: it goes on by what each call read, not by one.
    while from < part.len() {
        let fed = script_calls::feed(sheet, &part[from..]);
        sum = write(shown, sum, script_calls::given_text(fed.given));
        sheet = fed.sheet;
        from += fed.read;
    }
    Printed { sheet, sum }
}

// No part is read, and the header is written.
pub fn begin(shown: bool) -> Printed
    ensures { result ≡ start_printed }
{
    let sheet = script_calls::begin();
    let header = write(shown, 0, script_calls::header_text());
    Printed { sheet, sum: header }
}

// Reads the input part by part. The count of parts only bounds the loop: 2^64 of them are never read.
fn read_all() -> Printed
    ensures { Reading result }
{
    let mut buffer = io::large_buffer();
    let mut printed = begin(true);
    for _ in 0..u64::MAX {
        let n = io::read_full(STDIN_FILENO, &mut buffer);
        if n == 0 {
            break;
        }
        printed = feed_all(true, printed, &buffer[..n]);
    }
    printed
}

// The end of the input: the row of a last line that lacks its newline.
pub fn finish(shown: bool, before: Printed) -> Printed
    ensures { result ≡ end_printed before }
{
    let last = script_calls::finish(before.sheet);
    let all = write(shown, before.sum, script_calls::given_text(last.given));
    Printed {
        sheet: last.sheet,
        sum: all,
    }
}

// The program: the header, a row for each line, and the row of a last line that lacks its newline.
pub fn run() -> Printed
    ensures { Whole result }
{
    finish(true, read_all())
}
