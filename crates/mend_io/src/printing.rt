// What is given to print, and the checksum of it.
ghost use Rattle.std.specs.Prelude.{◌≡◌, ◌≤◌, ◌<◌, length};
ghost use Rattle.lines.specs.Sums.{checksum};
ghost use Rattle.lines.specs.Collecting.{line_text};
ghost use Rattle.padding.specs.Files.{lines};
ghost use Rattle.mend_text.specs.Reports.{header, fitting};
ghost use Rattle.mend_io.specs.Steps.{Batched, Shown};

use lines::Line;

// The descriptor of standard output.
const STDOUT_FILENO: i32 = 1;

// The checksum after more bytes were given to print, and whether all went well. No Result: the checksum counts on in both cases.
#[derive(Clone, Copy)]
pub(crate) struct Printed {
    pub whole: bool,
    pub sum: u64,
}

// The same for some lines of a report, and how many they are.
#[derive(Clone, Copy)]
struct Batch {
    lines: usize,
    whole: bool,
    sum: u64,
}

// Gives bytes to print.
fn print(sum: u64, text: &[u8]) -> Printed
    ensures { result.sum ≡ checksum sum text.now }
{
    let whole = io::write_all(STDOUT_FILENO, text);
    let after = lines_calls::summed(sum, text);
    Printed { whole, sum: after }
}

// Gives a line to print.
pub(crate) fn print_line(sum: u64, line: Line) -> Printed
    requires { line.length ≤ 120 }
    ensures { result.sum ≡ checksum sum (line_text line) }
{
    let n = line.length as usize;
    let bytes = line.bytes;
    print(sum, &bytes[..n])
}

// Prints the header, the first text of all.
pub(crate) fn print_header() -> Printed
    ensures { result.sum ≡ checksum 0 header }
{
    print_line(0, mend_text::header_text())
}

// Prints the first lines of a report, as many as the text takes.
fn print_lines(sum: u64, positions: &[u64], olds: &[u8], text: &mut [u8]) -> Batch
    ensures printed { Batched sum (fitting (length text.old) (lines positions.now olds.now)) result }
    ensures some { 25 ≤ length text.old → 0 < length (lines positions.now olds.now) → 0 < result.lines }
{
    let gathered = mend_text::gather(positions, olds, text);
    let n = gathered.bytes;
    let printed = print(sum, &text[..n]);
    Batch {
        lines: gathered.lines,
        whole: printed.whole,
        sum: printed.sum,
    }
}

// Prints a report, a text full at a time: a line has at most 25 bytes.
pub(crate) fn print_report(before: u64, positions: &[u64], olds: &[u8], text: &mut [u8]) -> Printed
    requires positions_len { length positions.now ≡ length olds.now }
    requires in_bounds { 25 ≤ length text.old }
    ensures { Shown before (lines positions.now olds.now) result }
{
    let mut sum = before;
    let mut from = 0;
    // A while: it goes on by the lines that a text took, not by one.
    while from < positions.len() {
        let batch = print_lines(sum, &positions[from..], &olds[from..], text);
        sum = batch.sum;
        from += batch.lines;
        if !batch.whole {
            return Printed { whole: false, sum };
        }
    }
    Printed { whole: true, sum }
}
