// A line, read byte by byte: its command's name, then the words. The members of a list are not kept: they are put into it as they come, so a line may have any length.
use crate::commands::{Command, Row, Words};
use crate::lists::Lists;
use crate::numbers::Numbers;
use crate::parts::Parts;
use crate::words::{Kind, Word};

// Why a line is not made: a word could not be read or is out of its range; or what the command looks at is spoilt.
#[derive(Clone, Copy)]
pub enum Unmade {
    Unreadable,
    Spoilt,
}

impl Unmade {
    pub fn text(self) -> &'static [u8] {
        match self {
            Unmade::Unreadable => b" unreadable\n",
            Unmade::Spoilt => b" not made\n",
        }
    }
}

// What is being read.
#[derive(Clone, Copy)]
enum Phase {
    Beginning,
    Comment,
    Name,
    // the words of this command
    Words(&'static Row),
    // nothing more: a word of this command could not be read, or the name is none
    Damaged(Option<&'static Row>),
}

// A name, of at most 24 letters.
#[derive(Clone, Copy)]
struct Name {
    letters: [u8; 24],
    length: usize,
}

impl Name {
    fn new() -> Name {
        Name {
            letters: [0; 24],
            length: 0,
        }
    }

    // The row of this name, if there is one.
    fn row(&self) -> Option<&'static Row> {
        Row::find(self.letters.get(..self.length)?)
    }

    // One letter more, if there is room.
    fn push(&mut self, c: u8) -> Option<()> {
        let place = self.letters.get_mut(self.length)?;
        *place = c;
        self.length = self.length.saturating_add(1);
        Some(())
    }
}

#[derive(Clone, Copy)]
pub struct Line {
    // counted from 1
    pub number: u64,
    phase: Phase,
    name: Name,
    word: Word,
    pub numbers: Numbers,
    // how many members of a list are read
    pub members: usize,
}

impl Line {
    // The line of a number before its first byte.
    pub fn new(number: u64) -> Line {
        Line {
            number,
            phase: Phase::Beginning,
            name: Name::new(),
            word: Word::new(),
            numbers: Numbers::new(),
            members: 0,
        }
    }

    // One byte more, which is no newline.
    pub fn read(&mut self, c: u8, lists: &mut Lists<'_>) {
        match self.phase {
            Phase::Beginning if c == b'#' => self.phase = Phase::Comment,
            Phase::Beginning | Phase::Name => self.read_letter(c),
            Phase::Words(row) if c == b' ' => self.end_word(row, lists),
            Phase::Words(row) => self.read_word(row, c),
            Phase::Comment | Phase::Damaged(_) => {}
        }
    }

    // The newline.
    pub fn end(&mut self, lists: &mut Lists<'_>) {
        match self.phase {
            Phase::Name => {
                let row = self.name.row();
                self.phase = row.map_or(Phase::Damaged(None), Phase::Words);
            }
            Phase::Words(row) => self.end_word(row, lists),
            Phase::Beginning | Phase::Comment | Phase::Damaged(_) => {}
        }
    }

    // A letter of the name, or the space behind it; names may have a space in them.
    fn read_letter(&mut self, c: u8) {
        let row = if c == b' ' { self.name.row() } else { None };
        self.phase = match row {
            Some(row) => Phase::Words(row),
            None => match self.name.push(c) {
                Some(()) => Phase::Name,
                None => Phase::Damaged(None),
            },
        };
    }

    // The kind of the next word, if there is to be one.
    fn kind(&self, row: &Row) -> Option<Kind> {
        match row.words() {
            Words::Each(kinds) => kinds.get(self.numbers.len()).copied(),
            Words::Members(list) => Some(list.kind()),
        }
    }

    // A byte of a word.
    fn read_word(&mut self, row: &'static Row, c: u8) {
        match self.kind(row) {
            Some(kind) => self.word.read(c, kind),
            None => self.phase = Phase::Damaged(Some(row)),
        }
    }

    // The end of a word.
    fn end_word(&mut self, row: &'static Row, lists: &mut Lists<'_>) {
        if self.take_word(row, lists).is_none() {
            self.phase = Phase::Damaged(Some(row));
        }
    }

    // Takes the word that was read: keeps its number, or puts it into its list as often as it stands. None where it cannot be.
    fn take_word(&mut self, row: &Row, lists: &mut Lists<'_>) -> Option<()> {
        let word = self.word;
        let n = word.value(self.kind(row)?)?;
        match row.words() {
            Words::Members(list) => {
                self.members = lists.put(list, self.members, word.times()?, n)?;
            }
            Words::Each(_) => {
                if word.is_starred() {
                    return None;
                }
                self.numbers.push(n);
            }
        }
        self.word = Word::new();
        Some(())
    }

    // Whether it is empty or a comment.
    pub fn is_silent(&self) -> bool {
        matches!(self.phase, Phase::Beginning | Phase::Comment)
    }

    // The command of a line that ended, if it has the words of it.
    pub fn command(&self) -> Option<Command> {
        match self.phase {
            Phase::Words(row) => match row.words() {
                Words::Each(kinds) if kinds.len() != self.numbers.len() => None,
                _ => Some(row.command()),
            },
            _ => None,
        }
    }

    // What it sets, or would have set; a command that is not known may have set anything.
    pub fn sets(&self) -> Parts {
        match self.phase {
            Phase::Words(row) | Phase::Damaged(Some(row)) => row.command().sets(),
            _ => Parts::ALL,
        }
    }
}
