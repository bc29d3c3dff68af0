// The numbers of a line, at most sixteen, and what they say. They are taken one after another; one that is missing is 0.
use crate::source::Draws;
use layout::{CubeLayout, ElementBox};
use lut::{Counters, Slope, Table, XMode, XSettings, YSettings};
use parlour::Conversion;
use pixels::PixelSetting;
use regions::{Rectangle, Region};
use walk::Walk;
use weights::WeightLayout;

#[derive(Clone, Copy)]
pub struct Numbers {
    numbers: [i64; 16],
    // how many are put, and how many of them are taken
    put: usize,
    taken: usize,
}

impl Numbers {
    pub fn new() -> Numbers {
        Numbers {
            numbers: [0; 16],
            put: 0,
            taken: 0,
        }
    }

    // How many there are.
    pub fn len(self) -> usize {
        self.put
    }

    // Puts one more behind the others, if there is room.
    pub fn push(&mut self, n: i64) {
        if self.put < 16 {
            self.numbers[self.put] = n;
            self.put += 1;
        }
    }

    // Takes the next.
    fn next(&mut self) -> i64 {
        if self.taken < 16 {
            let n = self.numbers[self.taken];
            self.taken += 1;
            return n;
        }
        0
    }

    pub fn natural(&mut self) -> u32 {
        u32::try_from(self.next()).unwrap_or(0)
    }

    pub fn index(&mut self) -> usize {
        self.natural() as usize
    }

    pub fn signed(&mut self) -> i32 {
        i32::try_from(self.next()).unwrap_or(0)
    }

    pub fn short(&mut self) -> i16 {
        i16::try_from(self.next()).unwrap_or(0)
    }

    // A position, or a number of 64 bits.
    pub fn wide(&mut self) -> u64 {
        self.next().cast_unsigned()
    }

    // The lower 32 bits of any number.
    pub fn word(&mut self) -> u32 {
        word_of(self.next())
    }

    // `seed base span step`.
    pub fn draws(&mut self) -> Draws {
        Draws {
            state: self.natural(),
            base: self.word(),
            span: self.natural(),
            step: self.word(),
        }
    }

    // `W H C precision line surface start`.
    pub fn cube_layout(&mut self) -> CubeLayout {
        CubeLayout {
            width: self.natural(),
            height: self.natural(),
            channels: self.natural(),
            precision: self.natural(),
            line: self.natural(),
            surface: self.natural(),
            start: self.natural(),
        }
    }

    // `K C R S precision`.
    pub fn weight_layout(&mut self) -> WeightLayout {
        WeightLayout {
            kernels: self.natural(),
            channels: self.natural(),
            rows: self.natural(),
            columns: self.natural(),
            precision: self.natural(),
        }
    }

    // `c h w nc nh nw`.
    pub fn element_box(&mut self) -> ElementBox {
        ElementBox {
            channel: self.natural(),
            row: self.natural(),
            column: self.natural(),
            channels: self.natural(),
            rows: self.natural(),
            columns: self.natural(),
        }
    }

    // `w0 h0 w h`.
    pub fn rectangle(&mut self) -> Rectangle {
        Rectangle {
            column: self.natural(),
            row: self.natural(),
            columns: self.natural(),
            rows: self.natural(),
        }
    }

    // `placed id w0 h0 w h`.
    pub fn region(&mut self) -> Region {
        Region {
            placed: self.natural() != 0,
            owner: self.natural(),
            rectangle: self.rectangle(),
        }
    }

    // `format width height channels precision offset start line`.
    pub fn pixel_setting(&mut self) -> PixelSetting {
        PixelSetting {
            format: self.natural(),
            width: self.natural(),
            height: self.natural(),
            channels: self.natural(),
            precision: self.natural(),
            offset: self.natural(),
            start: self.natural(),
            line: self.natural(),
        }
    }

    // `offset SF shift`.
    pub fn conversion(&mut self) -> Conversion {
        Conversion {
            offset: self.short(),
            scale: self.short(),
            shift: self.natural(),
        }
    }

    // `scale shift`.
    fn slope(&mut self) -> Slope {
        Slope {
            scale: self.short(),
            shift: self.signed(),
        }
    }

    // `start end below_scale below_shift above_scale above_shift`, behind the number of the mode.
    pub fn x_settings(&mut self, mode: XMode) -> XSettings {
        XSettings {
            mode,
            start: self.signed(),
            end: self.signed(),
            below: self.slope(),
            above: self.slope(),
        }
    }

    // `select start end below_scale below_shift above_scale above_shift`.
    pub fn y_settings(&mut self) -> YSettings {
        YSettings {
            select: self.signed(),
            start: self.signed(),
            end: self.signed(),
            below: self.slope(),
            above: self.slope(),
        }
    }

    // 0 is X, any other Y.
    pub fn table(&mut self) -> Table {
        match self.natural() {
            0 => Table::X,
            _ => Table::Y,
        }
    }

    // 0 names X, 1 names Y, any other none.
    pub fn choice(&mut self) -> Option<Table> {
        match self.natural() {
            0 => Some(Table::X),
            1 => Some(Table::Y),
            _ => None,
        }
    }

    // `x_only y_only underflow overflow priority`.
    pub fn counters(&mut self) -> Counters {
        Counters {
            x: self.natural(),
            y: self.natural(),
            underflow: self.natural(),
            overflow: self.natural(),
            priority: self.natural(),
        }
    }

    // The twelve numbers of a walk, in the order of its fields.
    pub fn walk(&mut self) -> Walk {
        Walk {
            position: self.wide(),
            index: self.wide(),
            columns: self.wide(),
            rows: self.wide(),
            channels: self.wide(),
            precision: self.wide(),
            width: self.wide(),
            height: self.wide(),
            plane: self.wide(),
            line: self.wide(),
            surface: self.wide(),
            group: self.wide(),
        }
    }
}

// The lower 32 bits of a number.
pub fn word_of(n: i64) -> u32 {
    (n.cast_unsigned() & 0xffff_ffff) as u32
}
