// A word of a line, read byte by byte: a decimal number with a sign where negative, or hexadecimal digits; after either, `*` and how many times it stands.

// What a word can stand for.
#[derive(Clone, Copy, PartialEq)]
pub enum Kind {
    // a natural number of 32 bits
    Natural,
    // a signed number of 32 bits
    Signed,
    // a natural number below LIMIT
    Position,
    // a number of 64 bits: such a natural number, or -k for 2^64 - k, k at most 2^31
    Wide,
    // a signed number of 16 bits
    Element,
    // two hexadecimal digits
    Byte,
}

// Positions are below 2^61 - 2^31.
const LIMIT: i64 = 2305843007066210304;

impl Kind {
    // Whether a number is one of this kind.
    fn has(self, n: i64) -> bool {
        match self {
            Kind::Natural => u32::try_from(n).is_ok(),
            Kind::Signed => i32::try_from(n).is_ok(),
            Kind::Position => (0..LIMIT).contains(&n),
            Kind::Wide => (i64::from(i32::MIN)..LIMIT).contains(&n),
            Kind::Element => i16::try_from(n).is_ok(),
            Kind::Byte => u8::try_from(n).is_ok(),
        }
    }

    // Whether a sign may stand before it.
    fn is_signed(self) -> bool {
        matches!(self, Kind::Signed | Kind::Wide | Kind::Element)
    }
}

// What was read of a word: its sign, its number and how many digits it has, and the count after a `*`, if one came. The number is none once the word cannot be read.
#[derive(Clone, Copy)]
pub struct Word {
    negative: bool,
    number: Option<u64>,
    digits: u32,
    times: Option<u64>,
}

// A number with one digit more, if it is one.
fn extended(number: u64, c: u8, hexadecimal: bool) -> Option<u64> {
    let radix = if hexadecimal { 16 } else { 10 };
    let digit = char::from(c).to_digit(radix)?;
    number
        .checked_mul(u64::from(radix))?
        .checked_add(u64::from(digit))
}

impl Word {
    // A word before its first byte.
    pub fn new() -> Word {
        Word {
            negative: false,
            number: Some(0),
            digits: 0,
            times: None,
        }
    }

    // One byte more of a word of a kind, which is no space and no newline.
    pub fn read(&mut self, c: u8, kind: Kind) {
        match c {
            b'*' if self.times.is_none() => self.times = Some(0),
            b'-' if !self.negative && self.digits == 0 => self.negative = true,
            _ => self.read_digit(c, kind == Kind::Byte),
        }
    }

    // A digit of the number, or of the count; any other byte cannot be read.
    fn read_digit(&mut self, c: u8, hexadecimal: bool) {
        match self.times {
            None => {
                self.number = self.number.and_then(|n| extended(n, c, hexadecimal));
                self.digits = self.digits.saturating_add(1);
            }
            Some(times) => {
                self.times = extended(times, c, false);
                if self.times.is_none() {
                    self.times = Some(0);
                    self.number = None;
                }
            }
        }
    }

    // The number of a word of a kind: a byte has two digits, and a sign is for signed numbers alone.
    pub fn value(self, kind: Kind) -> Option<i64> {
        let n = i64::try_from(self.number?).ok()?;
        let value = if self.negative { -n } else { n };
        let is_one = match kind {
            Kind::Byte => self.digits == 2,
            _ => 0 < self.digits,
        };
        if is_one && (kind.is_signed() || !self.negative) && kind.has(value) {
            Some(value)
        } else {
            None
        }
    }

    // How many times it stands.
    pub fn times(self) -> Option<u64> {
        match self.times {
            None => Some(1),
            Some(0) => None,
            Some(n) => Some(n),
        }
    }

    // Whether a `*` came.
    pub fn is_starred(self) -> bool {
        self.times.is_some()
    }
}
