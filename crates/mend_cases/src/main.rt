// Runs the mending program's library on many inputs, over the files of data/: after each run, how it ended, and what then stands in a file that the case names.
#![tactic(auto)]

ghost use Rattle.std.specs.Prelude.{◌≡◌, length};

use mend_io::Ended;
use mend_io::files::{open_file, read_part};

// The descriptors of standard input and output.
const STDIN_FILENO: i32 = 0;

const STDOUT_FILENO: i32 = 1;

// A file's length and the checksum of its bytes.
#[derive(Clone, Copy)]
struct Contents {
    length: u64,
    sum: u64,
}

// 262,144 zeros, for all cases. The `ensures` gives only the length.
fn all_cases() -> [u8; 262144]
    ensures { 262144 ≡ length result }
{
    [0; 262144]
}

// What stands in a file, read to its end.
fn contents_of(rt: &HostRuntime, name: &[u8]) -> Option<Contents> {
    let from = open_file(rt, name)?;
    let mut buffer = io::large_buffer();
    let mut length: u64 = 0;
    let mut sum: u64 = 0;
    // A while: it ends by the length read, which the next part may not pass, as in mend_io.
    while length < 18446744073709486080 {
        let n = read_part(&from, &mut buffer)?;
        if n == 0 {
            return Some(Contents { length, sum });
        }
        sum = lines_calls::summed(sum, &buffer[..n]);
        length += n as u64;
    }
    None
}

fn print_space() {
    io::write_all(STDOUT_FILENO, b" ");
}

// A number and the line's end.
fn print_last(n: u64) {
    io::print_decimal(STDOUT_FILENO, n);
    io::write_all(STDOUT_FILENO, b"\n");
}

// Two numbers in a line.
fn print_pair(length: u64, sum: u64) {
    io::print_decimal(STDOUT_FILENO, length);
    print_space();
    print_last(sum);
}

// Prints what stands in a file.
fn show(rt: &HostRuntime, name: &[u8]) {
    match contents_of(rt, name) {
        Some(contents) => print_pair(contents.length, contents.sum),
        None => {
            io::write_all(STDOUT_FILENO, b"none\n");
        }
    }
}

// How a run ended.
fn print_ended(ended: Ended) {
    io::write_all(STDOUT_FILENO, b"ended ");
    io::print_decimal(STDOUT_FILENO, ended.code as u64);
    print_space();
    print_pair(ended.length, ended.sum);
}

// One case: the name of the file to show, up to the first newline, and the program's input behind it.
fn run_case(rt: &HostRuntime, number: u64, case: &[u8]) {
    io::write_all(STDOUT_FILENO, b"case ");
    print_last(number);
    let n = lines_calls::part_length(case, b'\n');
    if n < case.len() {
        print_ended(mend_io::run(rt, &case[n + 1..]));
    }
    show(rt, &case[..n]);
}

// All cases, each ended by a byte 0, numbered from 1.
fn run_all(rt: &HostRuntime, cases: &[u8]) {
    let mut number: u64 = 0;
    let mut from = 0;
    // A while: it goes on by a case, not by one.
    while from < cases.len() {
        let end = from + lines_calls::part_length(&cases[from..], 0);
        number += 1;
        run_case(rt, number, &cases[from..end]);
        from = end + 1;
    }
}

fn main(rt: HostRuntime) {
    let mut cases = all_cases();
    let n = io::read_full(STDIN_FILENO, &mut cases);
    run_all(&rt, &cases[..n]);
}
