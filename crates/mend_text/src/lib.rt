// The mending program's input and its text: a frame and two file names; the lines of a report (change request K8).
#![tactic(auto)]

ghost use Rattle.std.specs.Prelude.{ℕ, ◌+◌, ◌≤◌, ◌≡◌, not, ◌&&◌, List, length, drop};
ghost use Rattle.std.proofs.Math.Seq.{paste};
ghost use Rattle.lines.specs.Texts.{part_length, same_text};
ghost use Rattle.lines.specs.Collecting.{written};
ghost use Rattle.mend_text.specs.Requests.{is_name, with_names, meant, request_of, StandsIn, Placed};
ghost use Rattle.mend_text.specs.Reports.{header, dirt_text, number_text, gathered, gather_text};

use layout::CubeLayout;
use lines::Line;
use records::Record;

// What an input asks for: a frame, the name of the file that holds it, and that of the file to write, both as they stand in the input.
#[derive(Clone, Copy)]
pub struct Names<'a> {
    pub layout: CubeLayout,
    pub first: &'a [u8],
    pub second: &'a [u8],
}

// How many lines of a report were gathered, and how many bytes they have.
#[derive(Clone, Copy)]
pub struct Gathered {
    pub lines: usize,
    pub bytes: usize,
}

// ---- the input
// Where the line that begins at byte `from` ends: at its newline, or at the end of the text.
fn line_end(text: &[u8], from: usize) -> usize
    requires { from ≤ length text.now }
    ensures { result ≡ from + part_length 10 (drop from text.now) }
{
    from + lines_calls::part_length(&text[from..], b'\n')
}

// Whether a line is a name: one field of at most 120 bytes.
fn is_name(line: &[u8]) -> bool
    ensures { result ≡ is_name line.now }
{
    (1..=120).contains(&line.len()) && lines_calls::part_length(line, b'\t') == line.len()
}

// Whether two lines are different names.
fn are_names(first: &[u8], second: &[u8]) -> bool
    ensures { result ≡ is_name first.now && is_name second.now && not (same_text first.now second.now) }
{
    is_name(first) && is_name(second) && first != second
}

// A record, if the first line is one, and two lines behind it.
fn with_names<'a>(item: Option<Record>, first: &'a [u8], second: &'a [u8]) -> Option<Names<'a>>
    ensures asked { meant result ≡ with_names item first.now second.now }
    ensures placed { (text : List ℕ) → StandsIn text first.now → StandsIn text second.now → Placed text result }
{
    if !are_names(first, second) {
        return None;
    }
    let Record::Frame(layout) = item? else {
        return None;
    };
    Some(Names {
        layout,
        first,
        second,
    })
}

// Reads an input: a frame, and two different names.
pub fn read_input(text: &[u8]) -> Option<Names>
    ensures asked { meant result ≡ request_of text.now }
    ensures placed { Placed text.now result }
{
    let a = line_end(text, 0);
    if a == text.len() {
        return None;
    }
    let b = line_end(text, a + 1);
    if b == text.len() {
        return None;
    }
    let c = line_end(text, b + 1);
    if c + 1 < text.len() {
        return None;
    }
    with_names(records::read(&text[..a]), &text[a + 1..b], &text[b + 1..c])
}

// ---- the text
// The header.
pub fn header_text() -> Line
    ensures { result ≡ written header }
{
    let empty = lines_calls::empty();
    lines_calls::add(empty, b"position\told\n")
}

// A refusal's number.
pub fn number_text(n: u32) -> Line
    ensures { result ≡ written (number_text n) }
{
    let empty = lines_calls::empty();
    let first = lines_calls::add_number(empty, n as u64);
    lines_calls::add(first, b"\n")
}

// A line of a report.
pub fn dirt_text(position: u64, old: u8) -> Line
    ensures { result ≡ written (dirt_text (record { position = position; old = old })) }
{
    let empty = lines_calls::empty();
    let first = lines_calls::add_number(empty, position);
    let second = lines_calls::add(first, b"\t");
    let third = lines_calls::add_number(second, old as u64);
    lines_calls::add(third, b"\n")
}

// Puts a line's bytes into a buffer, from index `at` on.
fn put(line: Line, out: &mut [u8], at: usize)
    requires { (line.length ≤ 120) × (at + line.length ≤ length out.old) }
    ensures { out.new ≡ paste out.old at line.bytes line.length }
{
    let n = line.length as usize;
    out[at..at + n].copy_from_slice(&line.bytes[..n]);
}

// Gathers a report's lines into a buffer, from the first on, as many whole ones as fit: how many, and how many bytes they have. The report is its positions and
// old values, side by side.
pub fn gather(positions: &[u64], olds: &[u8], out: &mut [u8]) -> Gathered
    ensures counted { result ≡ gathered positions.now olds.now (length out.old) }
    ensures left { out.new ≡ gather_text positions.now olds.now out.old }
{
    let count = positions.len().min(olds.len());
    let mut at: usize = 0;
    // By index, no zip: the edit `longer_list` takes as many lines as the longer list has.
    for i in 0..count {
        let line = dirt_text(positions[i], olds[i]);
        let n = line.length as usize;
        if out.len() - at < n {
            return Gathered {
                lines: i,
                bytes: at,
            };
        }
        put(line, out, at);
        at += n;
    }
    Gathered {
        lines: count,
        bytes: at,
    }
}
