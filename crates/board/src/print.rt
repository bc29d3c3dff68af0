// What is printed.

// The descriptor of standard output.
const STDOUT_FILENO: i32 = 1;

pub fn print(text: &[u8]) {
    io::write_all(STDOUT_FILENO, text);
}

pub fn end_line() {
    print(b"\n");
}

// The number of the line that is answered.
pub fn print_line_number(line: u64) {
    io::print_decimal(STDOUT_FILENO, line);
    print(b":");
}

// Line number and a text.
pub fn print_text(line: u64, text: &[u8]) {
    print_line_number(line);
    print(text);
}

// A number of a list, decimal.
pub fn print_member(n: i64) {
    if n < 0 {
        print(b"-");
    }
    io::print_decimal(STDOUT_FILENO, n.unsigned_abs());
}

// A position of a list, decimal.
pub fn print_position(n: u64) {
    io::print_decimal(STDOUT_FILENO, n);
}

// A byte of a list, two hexadecimal digits.
pub fn print_byte(b: u8) {
    io::print_hex(STDOUT_FILENO, u64::from(b), 2);
}

// A space and a natural number.
pub fn print_natural(n: u64) {
    print(b" ");
    print_position(n);
}

// A space and a signed number.
pub fn print_signed(n: i64) {
    print(b" ");
    print_member(n);
}

// Whether all is as it must be.
pub fn print_same(same: bool) {
    print(if same { b" same" } else { b" differs" });
}
