// A sheet, whose bytes are the buffer, given whole and cut in two at each index (scope paper, "The sheet program").
ghost use Rattle.std.specs.Prelude.{◌+◌, ◌≤◌, length};

use crate::print::{end_line, print, print_line_number, print_natural};

// The checksum of what a sheet prints, given in two parts with a call for nothing between them; it is printed if `shown`.
fn in_parts(shown: bool, first: &[u8], second: &[u8]) -> u64 {
    let mut printed = sheet_io::feed_all(shown, sheet_io::begin(shown), first);
    printed.sheet = script_calls::feed(printed.sheet, b"").sheet;
    let rest = sheet_io::feed_all(shown, printed, second);
    sheet_io::finish(shown, rest).sum
}

// The first of so many cuts, from the beginning on, that prints something else than what has the checksum `whole`.
fn first_difference(input: &[u8], cuts: usize, whole: u64) -> Option<usize>
    requires { cuts ≤ length input.now + 1 }
{
    for k in 0..cuts {
        if in_parts(false, &input[..k], &input[k..]) != whole {
            return Some(k);
        }
    }
    None
}

// At how many indices an input is cut in two: at each, both ends too, or at the first 400 of a long one.
fn cut_count(len: usize) -> usize
    ensures { result ≤ len + 1 }
{
    if len > 400 { 400 } else { len + 1 }
}

// Runs the sheet as the sheet program does; then prints the line's number and the number of cuts that print the same, or the first index of a cut that does not.
pub fn run(line: u64, input: &[u8]) {
    let whole = in_parts(true, input, b"");
    let cuts = cut_count(input.len());
    let difference = first_difference(input, cuts, whole);
    print_line_number(line);
    match difference {
        Some(k) => {
            print(b" differs at");
            print_natural(k as u64);
        }
        None => {
            print(b" same cuts");
            print_natural(cuts as u64);
        }
    }
    end_line();
}
