// Packs one small cube and prints the packed buffer (scope paper, "Cells and cubes"; the layout is that of its sheet's example).
#![tactic(auto)]

ghost use Rattle.std.specs.Prelude.{◌≡◌, ℕ, ◌%◌, ◌<◌, pos, ◌-ℤ◌, length, get_or};

use layout::CubeLayout;
use refusal::{Fault, Refusal};

// The descriptor of standard output.
const STDOUT_FILENO: i32 = 1;

// Three columns, two rows and forty channels of int8; 128 bytes from line to line, 256 from surface to surface.
fn example_layout() -> CubeLayout {
    CubeLayout {
        width: 3,
        height: 2,
        channels: 40,
        precision: 0,
        line: 128,
        surface: 256,
        start: 0,
    }
}

// The element at raw index i, from -125 to 125.
fn element(i: usize) -> i16
    ensures { result ≡ pos (i % 251) -ℤ pos 125 }
{
    (i % 251) as i16 - 125
}

// Puts at each raw index its element.
fn fill(elements: &mut [i16])
    ensures { (k : ℕ) → k < length elements.old → get_or elements.new k (pos 0) ≡ pos (k % 251) -ℤ pos 125 }
{
    for (i, x) in elements.iter_mut().enumerate() {
        *x = element(i);
    }
}

// A space and two hexadecimal digits.
fn print_byte(byte: u8) {
    io::write_all(STDOUT_FILENO, b" ");
    io::print_hex(STDOUT_FILENO, byte as u64, 2);
}

// Each byte in turn.
fn print_bytes(bytes: &[u8]) {
    for &byte in bytes {
        print_byte(byte);
    }
}

// The offset of the line's first byte, its bytes, and a line end.
fn print_line(offset: usize, line: &[u8]) {
    io::print_decimal(STDOUT_FILENO, offset as u64);
    print_bytes(line);
    io::write_all(STDOUT_FILENO, b"\n");
}

// A line for each atom of 32 bytes; fewer bytes at the end are not printed.
fn print_buffer(buffer: &[u8]) {
    for (i, line) in buffer.chunks_exact(32).enumerate() {
        print_line(32 * i, line);
    }
}

// The word `refused` and the refusal's code.
fn print_refusal(r: Refusal) {
    io::write_all(STDOUT_FILENO, b"refused ");
    io::print_decimal(STDOUT_FILENO, refusal::code(r) as u64);
    io::write_all(STDOUT_FILENO, b"\n");
}

fn main() {
    let mut elements = [0i16; 240];
    fill(&mut elements);
    let mut buffer = [238u8; 480];
    match cube::pack(example_layout(), &elements, &mut buffer) {
        Ok(()) => print_buffer(&buffer),
        Err(Fault(refusal, _)) => print_refusal(refusal),
    }
}
