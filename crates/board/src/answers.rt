// Answers, as they are printed.
use crate::print::{end_line, print, print_line_number, print_natural, print_signed};
use layout::ByteOwner;
use quantize::Converted;
use refusal::{Fault, Quantity};

// Line number, refusal code and fault index.
pub fn print_answer<T: Copy>(line: u64, answer: Result<T, Fault>) {
    let answer = answer.map(|_| ());
    print_line_number(line);
    print_natural(u64::from(refusal::answer_code(answer)));
    print_natural(refusal::fault_index(answer) as u64);
}

// An answer with nothing behind it.
pub fn print_alone<T: Copy>(line: u64, answer: Result<T, Fault>) {
    print_answer(line, answer);
    end_line();
}

// An answer and its number, 0 where it is refused.
pub fn print_quantity(line: u64, q: Quantity) {
    print_answer(line, q);
    print_natural(q.unwrap_or(0));
}

// The same with nothing behind it: a position, an extent or a count.
pub fn print_value(line: u64, q: Quantity) {
    print_quantity(line, q);
    end_line();
}

// A converted number, and 1 where it was held.
pub fn print_converted(line: u64, converted: Result<Converted, Fault>) {
    print_answer(line, converted);
    let (value, held) = converted.map_or((0, false), |c| (c.value, c.held));
    print_signed(i64::from(value));
    print_natural(u64::from(held));
    end_line();
}

// Whose a byte is: an element's channel, row, column and byte, or a word; nothing where it is refused.
pub fn print_owner(line: u64, owner: Result<ByteOwner, Fault>) {
    print_answer(line, owner);
    match owner {
        Ok(ByteOwner::Element(c, h, w, b)) => {
            print(b" element");
            for n in [c, h, w, b] {
                print_natural(u64::from(n));
            }
        }
        Ok(ByteOwner::Padding) => print(b" padding"),
        Ok(ByteOwner::Gap) => print(b" gap"),
        Ok(ByteOwner::Outside) => print(b" outside"),
        Err(_) => {}
    }
    end_line();
}

// An entry of a curve.
pub fn print_entry(line: u64, entry: i16) {
    print_answer(line, Ok(entry));
    print_signed(i64::from(entry));
    end_line();
}
