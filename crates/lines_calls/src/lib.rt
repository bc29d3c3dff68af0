// Lines collected from parts of any size, their fields, words and numbers, and checksums: the calls on the definitions of `lines` (scope paper, "The sheet program").
#![tactic(auto)]

ghost use Rattle.std.specs.Prelude.{◌≡◌};
ghost use Rattle.lines.specs.Texts.{part_length, same_text};
ghost use Rattle.lines.specs.Numbers.{well_begun, number_of, with_minus, signed_of, numbers_behind};
ghost use Rattle.lines.specs.Digits.{digits, numeral, signed};
ghost use Rattle.lines.specs.Sums.{mixed, checksum};
ghost use Rattle.lines.specs.Collecting.{empty_line, added, is_whole, start_lines, next_lines, collected};

use lines::{Collected, Line, Lines, Number, Numbers};

// The largest number that a text may be.
const LARGEST: u64 = 4294967295;

// ---- lines
// A line of no bytes.
pub fn empty() -> Line
    ensures { result ≡ empty_line }
{
    Line {
        length: 0,
        bytes: [0; 120],
    }
}

// A line with more bytes at its end.
pub fn add(line: Line, more: &[u8]) -> Line
    ensures { result ≡ added line more.now }
{
    let Line {
        mut length,
        mut bytes,
    } = line;
    for &b in more {
        if length < 120 {
            bytes[length as usize] = b;
            length += 1;
        } else {
            length = 121;
        }
    }
    Line { length, bytes }
}

// Whether a line has at most 120 bytes, so that all of them are kept.
pub fn whole(line: Line) -> bool
    ensures { result ≡ is_whole line }
{
    line.length <= 120
}

// No line has ended, and the first has no bytes yet.
pub fn begin() -> Lines
    ensures { result ≡ start_lines }
{
    Lines {
        count: 0,
        line: empty(),
    }
}

// Reads a part of the input up to its first newline, or whole.
pub fn collect(lines: Lines, part: &[u8]) -> Collected
    ensures { result ≡ collected lines part.now }
{
    let n = part_length(part, b'\n');
    let line = add(lines.line, &part[..n]);
    let lines = Lines { line, ..lines };
    if n < part.len() {
        Collected {
            lines,
            read: n + 1,
            ended: true,
        }
    } else {
        Collected {
            lines,
            read: n,
            ended: false,
        }
    }
}

// The line in progress ends, and the next begins. After 2^64 − 1 lines the count begins again.
#[tactic(auto, unfolding(lines::specs::Collecting::next_lines))]
pub fn next(lines: Lines) -> Lines
    ensures { result ≡ next_lines lines }
{
    Lines {
        count: lines.count.wrapping_add(1),
        line: Line {
            length: 0,
            ..lines.line
        },
    }
}

// ---- fields and words
// How many bytes stand before the first separator of a text, or before its end.
pub fn part_length(text: &[u8], separator: u8) -> usize
    ensures { result ≡ part_length separator text.now }
{
    text.iter()
        .position(|&b| b == separator)
        .unwrap_or(text.len())
}

// Whether two texts are the same.
pub fn same(text: &[u8], word: &[u8]) -> bool
    ensures { result ≡ same_text text.now word.now }
{
    text == word
}

// ---- numbers
// Whether a text begins as a number does: no leading zero, save 0 itself.
#[tactic(auto, unfolding(lines::specs::Numbers::well_begun, lines::specs::Numbers::is_empty))]
fn well_begun(text: &[u8]) -> bool
    ensures { result ≡ well_begun text.now }
{
    match text {
        [] => false,
        [_] => true,
        [first, ..] => *first != b'0',
    }
}

// The number that a text is: digits up to 4294967295.
pub fn read_number(text: &[u8]) -> Option<Number>
    ensures { result ≡ number_of text.now }
{
    if !well_begun(text) {
        return None;
    }
    let mut high: u64 = 0;
    for &b in text {
        if !b.is_ascii_digit() {
            return None;
        }
        high = high * 10 + u64::from(b - b'0');
        if LARGEST < high {
            return None;
        }
    }
    Some(Number {
        minus: false,
        value: high as u32,
    })
}

// A number with a minus before it, if it is not 0.
#[tactic(auto, unfolding(lines::specs::Numbers::with_minus))]
fn negated(n: Number) -> Option<Number>
    ensures { result ≡ with_minus n }
{
    if n.value == 0 {
        return None;
    }
    Some(Number { minus: true, ..n })
}

// The number that a text is where a minus may stand before it.
pub fn read_signed(text: &[u8]) -> Option<Number>
    ensures { result ≡ signed_of text.now }
{
    match text.strip_prefix(b"-") {
        Some(digits) => negated(read_number(digits)?),
        None => read_number(text),
    }
}

// The numbers behind a field, from the text that follows it: each has a tab before it.
pub fn read_numbers(rest: &[u8]) -> Option<Numbers>
    ensures { result ≡ numbers_behind rest.now }
{
    let mut values = [0u32; 7];
    let mut count: usize = 0;
    let mut at: usize = 0;
    // A while: it goes on by each field's length, not by one.
    while at < rest.len() {
        if count == 7 {
            return None;
        }
        let from = at + 1;
        let end = from + part_length(&rest[from..], b'\t');
        let n = read_number(&rest[from..end])?;
        values[count] = n.value;
        count += 1;
        at = end;
    }
    Some(Numbers { count, values })
}

// ---- numbers as text
// A line with a number's digits at its end.
// Digits by hand: a Line that `write!` takes would need a fmt::Write with a contract of its own, and a Result that cannot be Err.
pub fn add_number(line: Line, n: u64) -> Line
    ensures { result ≡ added line (digits n) }
{
    let mut text = [0u8; 20];
    text[19] = b'0' + (n % 10) as u8;
    let mut at: usize = 19;
    let mut rest = n / 10;
    // A while: it ends where nothing is left of the number.
    while 0 < rest {
        at -= 1;
        text[at] = b'0' + (rest % 10) as u8;
        rest /= 10;
    }
    add(line, &text[at..])
}

// A line with a number at its end, a minus before its digits if it is negative.
pub fn add_signed(line: Line, minus: bool, n: u64) -> Line
    ensures { result ≡ added line (numeral (signed minus n)) }
{
    if minus && n != 0 {
        let begun = add(line, b"-");
        add_number(begun, n)
    } else {
        add_number(line, n)
    }
}

// ---- checksums
// A checksum with one byte more.
#[tactic(auto, unfolding(lines::specs::Sums::mixed))]
fn mixed_in(sum: u64, b: u8) -> u64
    ensures { result ≡ mixed sum b }
{
    (sum % 4294967296 * 65599 + u64::from(b) + 1) % 4294967296
}

// A checksum with more bytes.
pub fn summed(before: u64, text: &[u8]) -> u64
    ensures { result ≡ checksum before text.now }
{
    text.iter().fold(before, |sum, &b| mixed_in(sum, b))
}
