// The board: what lines lent and set, and what each command does with it.
use crate::answers::{
    print_alone, print_answer, print_converted, print_entry, print_owner, print_quantity,
    print_value,
};
use crate::commands::{Command, ListName};
use crate::line::{Line, Unmade};
use crate::lists::{Lists, tell_left};
use crate::lookup::{NO_COUNTERS, NO_SETTINGS};
use crate::numbers::Numbers;
use crate::parts::Parts;
use crate::print::{end_line, print_line_number, print_text};
use crate::source::Source;
use crate::{lookup, mended, mending, paint, scan, sheet};
use lut::{Counters, LutSettings, XMode};
use refusal::Answer;
use regions::RegionTable;

#[derive(Drop)]
pub struct Board<'a> {
    // the line under way
    line: Line,
    lists: Lists<'a>,
    // what a line that was not made would have set
    spoilt: Parts,
    // whether checksums are printed in place of lists
    sums: bool,
    table: RegionTable,
    // of the lookup
    settings: LutSettings,
    counters: Counters,
}

impl<'a> Board<'a> {
    // The board before the first byte: nothing is lent, and all numbers are 0.
    pub fn new(lists: Lists<'a>) -> Board<'a> {
        Board {
            line: Line::new(1),
            lists,
            spoilt: Parts::NONE,
            sums: false,
            table: regions_calls::empty(Numbers::new().cube_layout()),
            settings: NO_SETTINGS,
            counters: NO_COUNTERS,
        }
    }

    // Reads a byte; a line runs at its newline.
    pub fn read(&mut self, c: u8) {
        if c == b'\n' {
            self.line.end(&mut self.lists);
            self.end_line();
        } else {
            self.line.read(c, &mut self.lists);
        }
    }

    // A line that ended: makes it, or says why not.
    fn end_line(&mut self) {
        let line = self.line;
        if !line.is_silent() {
            let sets = line.sets();
            match self.make(line) {
                Ok(()) => self.spoilt = self.spoilt.without(sets),
                Err(unmade) => {
                    print_text(line.number, unmade.text());
                    self.spoilt = self.spoilt.with(sets);
                }
            }
        }
        self.line = Line::new(line.number.wrapping_add(1));
    }

    // Makes a line that ended, if it can be.
    fn make(&mut self, line: Line) -> Result<(), Unmade> {
        let command = line.command().ok_or(Unmade::Unreadable)?;
        if self.spoilt.meets(command.uses()) {
            return Err(Unmade::Spoilt);
        }
        self.run(command, line)
    }

    // The answer of a call that may have changed the buffer, or the elements, and what it left.
    fn tell_buffer(&self, answer: Answer) {
        print_answer(self.line.number, answer);
        tell_left(
            self.sums,
            self.lists.elements.lent(),
            self.lists.buffer.lent(),
        );
    }

    fn tell_elements(&self, answer: Answer) {
        print_answer(self.line.number, answer);
        tell_left(
            self.sums,
            self.lists.buffer.lent(),
            self.lists.elements.lent(),
        );
    }

    // `set element i v`.
    fn set_element(&mut self, mut n: Numbers) -> Result<(), Unmade> {
        let i = n.index();
        let v = n.short();
        let place = self
            .lists
            .elements
            .lent_mut()
            .get_mut(i)
            .ok_or(Unmade::Unreadable)?;
        *place = v;
        Ok(())
    }

    // Runs a command on the numbers of its line.
    fn run(&mut self, command: Command, line: Line) -> Result<(), Unmade> {
        let number = line.number;
        let mut n = line.numbers;
        let lists = &mut self.lists;
        match command {
            Command::Lend(list) => lists.lend(list, line.members),
            Command::Fill(list) => {
                let count = n.index();
                lists.draw(list, count, Source::Always(n.word()))?;
            }
            Command::Draw(list) => {
                let count = n.index();
                lists.draw(list, count, Source::Drawn(n.draws()))?;
            }
            Command::More(list) => {
                let count = n.index();
                lists.draw_more(list, count, Source::Drawn(n.draws()))?;
            }
            Command::DrawCurves => {
                let count = n.index();
                lists.draw(ListName::Elements, count, Source::Curves(0))?;
            }
            Command::SetElement => self.set_element(n)?,
            Command::PrintAll => self.sums = false,
            Command::PrintSums => self.sums = true,
            Command::Show(list) => lists.show(list),
            Command::Sum(list) => {
                print_line_number(number);
                lists.sum(list).print();
                end_line();
            }
            Command::Pack => {
                let answer = cube::pack(
                    n.cube_layout(),
                    lists.elements.lent(),
                    lists.buffer.lent_mut(),
                );
                self.tell_buffer(answer);
            }
            Command::Write => {
                let layout = n.cube_layout();
                let answer = cube::write_box(
                    layout,
                    n.element_box(),
                    lists.elements.lent(),
                    lists.buffer.lent_mut(),
                );
                self.tell_buffer(answer);
            }
            Command::PackWeights => {
                let answer = weights_calls::pack(
                    n.weight_layout(),
                    lists.elements.lent(),
                    lists.buffer.lent_mut(),
                );
                self.tell_buffer(answer);
            }
            Command::Unpack => {
                let answer = cube::unpack(
                    n.cube_layout(),
                    lists.buffer.lent(),
                    lists.elements.lent_mut(),
                );
                self.tell_elements(answer);
            }
            Command::Read => {
                let layout = n.cube_layout();
                let answer = cube::read_box(
                    layout,
                    n.element_box(),
                    lists.buffer.lent(),
                    lists.elements.lent_mut(),
                );
                self.tell_elements(answer);
            }
            Command::UnpackWeights => {
                let answer = weights_calls::unpack(
                    n.weight_layout(),
                    lists.buffer.lent(),
                    lists.elements.lent_mut(),
                );
                self.tell_elements(answer);
            }
            Command::Edit => {
                let outcome = regions_calls::edit(
                    self.table,
                    n.natural(),
                    n.natural(),
                    n.element_box(),
                    lists.elements.lent(),
                    lists.buffer.lent_mut(),
                );
                self.table = outcome.table;
                self.tell_buffer(outcome.answer);
            }
            Command::Look => {
                let outcome = regions_calls::read(
                    self.table,
                    n.natural(),
                    n.natural(),
                    n.element_box(),
                    lists.buffer.lent(),
                    lists.elements.lent_mut(),
                );
                self.table = outcome.table;
                self.tell_elements(outcome.answer);
            }
            Command::Release => {
                let outcome = regions_calls::release(
                    self.table,
                    n.natural(),
                    n.natural(),
                    lists.buffer.lent_mut(),
                );
                self.table = outcome.table;
                self.tell_buffer(outcome.answer);
            }
            Command::Paint => {
                let outcome = paint::run(
                    n,
                    self.table,
                    lists.elements.lent(),
                    lists.buffer.lent_mut(),
                );
                self.table = outcome.table;
                print_quantity(number, outcome.held);
                tell_left(self.sums, lists.elements.lent(), lists.buffer.lent());
            }
            Command::Desk => {
                self.table = regions_calls::empty(n.cube_layout());
                print_alone(number, Ok(()));
            }
            Command::Place => {
                let outcome = regions_calls::place(
                    self.table,
                    n.natural(),
                    n.natural(),
                    n.rectangle(),
                );
                self.table = outcome.table;
                print_alone(number, outcome.answer);
            }
            Command::HandSlot => {
                // a slot above 15 changes nothing
                if let Some(slot) = self.table.slots.get_mut(n.index()) {
                    *slot = n.region();
                }
                print_alone(number, Ok(()));
            }
            Command::HandLayout => {
                self.table.layout = n.cube_layout();
                print_alone(number, Ok(()));
            }
            Command::PixelSetting => print_alone(number, pixels_calls::setting(n.pixel_setting())),
            Command::Position => print_value(
                number,
                cube::position(n.cube_layout(), n.natural(), n.natural(), n.natural()),
            ),
            Command::Extent => print_value(number, layout_calls::extent(n.cube_layout())),
            Command::PixelPosition => print_value(
                number,
                pixels_calls::position(n.pixel_setting(), n.natural(), n.natural()),
            ),
            Command::StallPosition => print_value(
                number,
                regions_calls::position(
                    self.table,
                    n.natural(),
                    n.natural(),
                    n.natural(),
                    n.natural(),
                    n.natural(),
                ),
            ),
            Command::StallCount => print_value(
                number,
                regions_calls::count(self.table, n.natural(), n.natural()),
            ),
            Command::Convert => print_converted(
                number,
                quantize::convert(n.signed(), n.short(), n.short(), n.natural(), n.natural()),
            ),
            Command::Whose => print_owner(number, layout_calls::whose(n.cube_layout(), n.wide())),
            Command::CurveX => print_entry(number, curve_stored::x_entry(n.natural())),
            Command::CurveY => print_entry(number, curve_stored::y_entry(n.natural())),
            Command::ComputedX => print_entry(number, curve_computed::x_entry(n.natural())),
            Command::ComputedY => print_entry(number, curve_computed::y_entry(n.natural())),
            Command::XLinear => {
                let select = n.signed();
                self.settings.x = n.x_settings(XMode::Linear(select));
            }
            Command::XExponential => {
                let offset = n.signed();
                self.settings.x = n.x_settings(XMode::Exponential(offset));
            }
            Command::Y => self.settings.y = n.y_settings(),
            Command::Bits => self.settings = LutSettings {
                priority: n.table(),
                overflow: n.table(),
                underflow: n.table(),
                ..self.settings
            },
            Command::Counters => self.counters = n.counters(),
            Command::Ready => {
                let ready = camera::ready_made(n.signed(), n.choice(), n.choice(), n.choice());
                self.settings = ready.unwrap_or(self.settings);
                print_alone(number, ready);
            }
            Command::Lookup => self.counters = lookup::run(
                number,
                n,
                self.sums,
                self.settings,
                self.counters,
                lists.elements.lent(),
                lists.samples.lent(),
            )?,
            Command::Sheet => sheet::run(number, lists.buffer.lent()),
            Command::Walk => scan::run(
                number,
                n.cube_layout(),
                self.sums,
                lists.elements.lent(),
                lists.buffer.lent_mut(),
            ),
            Command::Step => scan::step(number, n.walk(), lists.elements.lent()),
            Command::MendPart => mending::part(number, n, self.sums, lists.buffer.lent_mut())?,
            Command::MendFile => mended::file(number, n, self.sums, lists.buffer.lent_mut())?,
        }
        Ok(())
    }
}
