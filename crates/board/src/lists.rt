// The three lists that lines lend, and how lists are told: by their members, or by a checksum.
use crate::commands::ListName;
use crate::line::Unmade;
use crate::numbers::word_of;
use crate::print::{end_line, print, print_byte, print_member, print_natural, print_position};
use crate::source::Source;

// A checksum: each word w that is told makes it s·65599 + w + 2147483648 + 1, modulo 2^32.
#[derive(Clone, Copy, PartialEq)]
pub struct Sum(u32);

impl Sum {
    // Of nothing.
    pub const EMPTY: Sum = Sum(0);

    // With a word more.
    pub fn with(self, word: u32) -> Sum {
        Sum(
            self.0
                .wrapping_mul(65599)
                .wrapping_add(word)
                .wrapping_add(2147483649),
        )
    }

    // With a position more: its lower 32 bits, then the others.
    pub fn with_position(self, position: u64) -> Sum {
        let lower = (position % 4294967296) as u32;
        self.with(lower).with((position / 4294967296) as u32)
    }

    pub fn print(self) {
        print_natural(u64::from(self.0));
    }
}

// What stands in a list that is told.
pub trait Told: Copy {
    // Prints it.
    fn print(self);

    // A checksum with it more.
    fn summed(self, sum: Sum) -> Sum;
}

// What stands in a list that lines lend.
pub trait Member: Told {
    // The member with these lower bits.
    fn of_word(word: u32) -> Self;
}

impl Told for i16 {
    fn print(self) {
        print_member(i64::from(self));
    }

    fn summed(self, sum: Sum) -> Sum {
        sum.with(word_of(i64::from(self)))
    }
}

impl Member for i16 {
    fn of_word(word: u32) -> i16 {
        ((word & 0xffff) as u16).cast_signed()
    }
}

impl Told for u8 {
    fn print(self) {
        print_byte(self);
    }

    fn summed(self, sum: Sum) -> Sum {
        sum.with(u32::from(self))
    }
}

impl Member for u8 {
    fn of_word(word: u32) -> u8 {
        (word & 0xff) as u8
    }
}

impl Told for i32 {
    fn print(self) {
        print_member(i64::from(self));
    }

    fn summed(self, sum: Sum) -> Sum {
        sum.with(self.cast_unsigned())
    }
}

impl Member for i32 {
    fn of_word(word: u32) -> i32 {
        word.cast_signed()
    }
}

// A position.
impl Told for u64 {
    fn print(self) {
        print_position(self);
    }

    fn summed(self, sum: Sum) -> Sum {
        sum.with_position(self)
    }
}

// Prints a list, 32 members to a line.
pub fn show<T: Told>(list: &[T]) {
    for row in list.chunks(32) {
        for (i, &member) in row.iter().enumerate() {
            if 0 < i {
                print(b" ");
            }
            member.print();
        }
        end_line();
    }
}

// The checksum of a list.
pub fn sum_of<T: Told>(list: &[T]) -> Sum {
    list.iter()
        .fold(Sum::EMPTY, |sum, &member| member.summed(sum))
}

// Ends an answer: prints a list, or its checksum.
pub fn tell<T: Told>(sums: bool, list: &[T]) {
    if sums {
        sum_of(list).print();
        end_line();
    } else {
        end_line();
        show(list);
    }
}

// Ends the answer of a call that may have changed a list: prints that list, or checksums, with the other list's before it.
pub fn tell_left<T: Told, U: Told>(sums: bool, other: &[T], left: &[U]) {
    if sums {
        sum_of(other).print();
    }
    tell(sums, left);
}

// A list that lines lend: room for its members, and how many are lent.
#[derive(Drop)]
pub struct List<'a, T> {
    room: &'a mut [T],
    count: usize,
}

impl<'a, T: Member> List<'a, T> {
    // A list with nothing lent.
    pub fn new(room: &'a mut [T]) -> List<'a, T> {
        List { room, count: 0 }
    }

    // What is lent.
    pub fn lent(&self) -> &[T] {
        let n = self.count.min(self.room.len());
        &self.room[..n]
    }

    pub fn lent_mut(&mut self) -> &mut [T] {
        let n = self.count.min(self.room.len());
        &mut self.room[..n]
    }

    // Puts a member so many times from an index on. The index behind them, if there is room.
    fn put(&mut self, from: usize, times: u64, word: u32) -> Option<usize> {
        let end = from.checked_add(usize::try_from(times).ok()?)?;
        for place in self.room.get_mut(from..end)? {
            *place = T::of_word(word);
        }
        Some(end)
    }

    // Lends so many members of a source, from an index on, if there is room.
    fn draw(&mut self, from: usize, n: usize, mut source: Source) -> Result<(), Unmade> {
        let end = from.checked_add(n).ok_or(Unmade::Unreadable)?;
        for place in self.room.get_mut(from..end).ok_or(Unmade::Unreadable)? {
            *place = T::of_word(source.next());
        }
        self.count = end;
        Ok(())
    }

    // Lends so many more behind those that are lent, if there is room.
    fn draw_more(&mut self, n: usize, source: Source) -> Result<(), Unmade> {
        let from = self.count;
        self.draw(from, n, source)
    }
}

#[derive(Drop)]
pub struct Lists<'a> {
    pub elements: List<'a, i16>,
    pub buffer: List<'a, u8>,
    pub samples: List<'a, i32>,
}

impl Lists<'_> {
    // Puts a number into a list so many times, from an index on. The index behind them, if there is room.
    pub fn put(&mut self, list: ListName, from: usize, times: u64, n: i64) -> Option<usize> {
        let word = word_of(n);
        match list {
            ListName::Elements => self.elements.put(from, times, word),
            ListName::Buffer => self.buffer.put(from, times, word),
            ListName::Samples => self.samples.put(from, times, word),
        }
    }

    // Lends the members that a line has put.
    pub fn lend(&mut self, list: ListName, members: usize) {
        match list {
            ListName::Elements => self.elements.count = members,
            ListName::Buffer => self.buffer.count = members,
            ListName::Samples => self.samples.count = members,
        }
    }

    // Lends so many members of a source, if there is room.
    pub fn draw(&mut self, list: ListName, n: usize, source: Source) -> Result<(), Unmade> {
        match list {
            ListName::Elements => self.elements.draw(0, n, source),
            ListName::Buffer => self.buffer.draw(0, n, source),
            ListName::Samples => self.samples.draw(0, n, source),
        }
    }

    // Lends so many more behind those that are lent, if there is room.
    pub fn draw_more(&mut self, list: ListName, n: usize, source: Source) -> Result<(), Unmade> {
        match list {
            ListName::Elements => self.elements.draw_more(n, source),
            ListName::Buffer => self.buffer.draw_more(n, source),
            ListName::Samples => self.samples.draw_more(n, source),
        }
    }

    pub fn show(&self, list: ListName) {
        match list {
            ListName::Elements => show(self.elements.lent()),
            ListName::Buffer => show(self.buffer.lent()),
            ListName::Samples => show(self.samples.lent()),
        }
    }

    pub fn sum(&self, list: ListName) -> Sum {
        match list {
            ListName::Elements => sum_of(self.elements.lent()),
            ListName::Buffer => sum_of(self.buffer.lent()),
            ListName::Samples => sum_of(self.samples.lent()),
        }
    }
}
