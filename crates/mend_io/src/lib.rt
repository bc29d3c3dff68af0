// The mending program's file work (change request K8): the first file is read twice, the second is written, and the report printed. Of reading and writing
// themselves nothing is proved; what is given to print is promised by a checksum of its bytes.
#![tactic(auto)]

mod copying;
pub mod files;
mod printing;

ghost use Rattle.std.specs.Prelude.{◌≡◌, ◌++◌};
ghost use Rattle.refusal.specs.Checks.{in_order};
ghost use Rattle.layout.specs.Rules.{layout_checks, room_checks};
ghost use Rattle.mend_text.specs.Requests.{request_of};
ghost use Rattle.mend_io.specs.Ending.{Ends};
ghost use Rattle.mend_io.specs.Steps.{number_end, Written, Mends};

use copying::copy_all;
use files::{back_to_start, make_file, open_file, read_part};
use layout::{CubeLayout, ElementBox};
use printing::print_line;
use refusal::Answer;
use std::fs::File;

// How a run ended: the number printed last, 0 if none; the length of the first file as it was read; a checksum of all bytes given to print.
#[derive(Clone, Copy)]
pub struct Ended {
    pub code: u32,
    pub length: u64,
    pub sum: u64,
}

// Prints a number, and ends with it.
fn last(sum: u64, code: u32, size: u64) -> Ended
    ensures { result ≡ number_end sum code size }
{
    let number = print_line(sum, mend_text::number_text(code));
    Ended {
        code,
        length: size,
        sum: number.sum,
    }
}

// The second file is made or emptied, and filled.
fn write_second(
    rt: &HostRuntime,
    layout: CubeLayout,
    size: u64,
    from: &File,
    second: &[u8],
) -> Ended
    ensures { Written layout size result }
{
    let Some(to) = make_file(rt, second) else {
        return last(0, 24, size);
    };
    let copied = copy_all(layout, size, from, &to);
    let sum = copied.sum;
    if !copied.whole {
        return last(sum, 24, size);
    }
    Ended {
        code: 0,
        length: size,
        sum,
    }
}

// Checks 1 to 5 of a frame in a file of so many bytes.
fn check(layout: CubeLayout, size: u64) -> Answer
    ensures { result ≡ in_order (layout_checks layout ++ room_checks layout size) }
{
    let whole = ElementBox {
        channel: 0,
        row: 0,
        column: 0,
        channels: layout.channels,
        rows: layout.height,
        columns: layout.width,
    };
    layout_calls::check_room(layout, whole, size as usize)
}

// The file's length, by reading it to its end. A length that no number of 64 bits holds is never read.
fn length_of(from: &File) -> Option<u64> {
    let mut buffer = io::large_buffer();
    let mut seen: u64 = 0;
    // Beside contents_of of mend_cases, which sums too: one function for both would take a closure with a contract for each part, which is no shorter.
    // A while: it ends by the length seen, which the next part may not pass: the edit `length_wraps` turns that bound.
    while seen < 18446744073709486080 {
        let n = read_part(from, &mut buffer)?;
        if n == 0 {
            return Some(seen);
        }
        seen += n as u64;
    }
    None
}

// The first file is open: its length, the frame's checks over it, and the second file.
fn mend_first(rt: &HostRuntime, layout: CubeLayout, from: &File, second: &[u8]) -> Ended
    ensures { Mends layout result }
{
    let Some(size) = length_of(from) else {
        return last(0, 24, 0);
    };
    if !back_to_start(from) {
        return last(0, 24, size);
    }
    match check(layout, size) {
        Ok(()) => write_second(rt, layout, size, from, second),
        Err(fault) => last(0, refusal::code(fault.0), size),
    }
}

// Both files by name.
fn mend_files(rt: &HostRuntime, layout: CubeLayout, first: &[u8], second: &[u8]) -> Ended
    ensures { Mends layout result }
{
    let Some(from) = open_file(rt, first) else {
        return last(0, 24, 0);
    };
    mend_first(rt, layout, &from, second)
}

// The program: what the input asks for, and how it ended.
pub fn run(rt: &HostRuntime, text: &[u8]) -> Ended
    ensures { Ends (request_of text.now) result }
{
    match mend_text::read_input(text) {
        Some(names) => mend_files(rt, names.layout, names.first, names.second),
        None => last(0, 24, 0),
    }
}
