// Where the members of a list come from that a line does not write out.
ghost use Rattle.std.specs.Prelude.{◌<◌, ◌^◌};

use crate::numbers::word_of;

// Numbers drawn from a state, each base + draw mod span, the base growing by step; a span of 0 is all 2^32.
#[derive(Clone, Copy)]
pub struct Draws {
    pub state: u32,
    pub base: u32,
    pub span: u32,
    pub step: u32,
}

impl Draws {
    // The next state.
    fn advance(&mut self) -> u32
        ensures { result < 2 ^ 31 }
    {
        self.state = self.state.wrapping_mul(1103515245).wrapping_add(12345) % 2147483648;
        self.state
    }

    // The upper halves of the next two states.
    fn draw(&mut self) -> u32 {
        let first = self.advance() / 32768;
        let second = self.advance() / 32768;
        first * 65536 + second
    }

    fn take(&mut self) -> u32 {
        let drawn = self.draw();
        let base = self.base;
        self.base = base.wrapping_add(self.step);
        base.wrapping_add(if self.span == 0 {
            drawn
        } else {
            drawn % self.span
        })
    }
}

// One word again and again; drawn numbers; or the camera curves from an entry on, X's 65 and then Y's.
#[derive(Clone, Copy)]
pub enum Source {
    Always(u32),
    Drawn(Draws),
    Curves(u32),
}

impl Source {
    // The next member, by its lower 32 bits.
    pub fn next(&mut self) -> u32 {
        match self {
            Source::Always(word) => *word,
            Source::Drawn(draws) => draws.take(),
            Source::Curves(i) => {
                let entry = curve_entry(*i);
                *i = i.saturating_add(1);
                word_of(i64::from(entry))
            }
        }
    }
}

// Entry i of the curves.
fn curve_entry(i: u32) -> i16 {
    if i < 65 {
        curve_stored::x_entry(i)
    } else {
        curve_stored::y_entry(i - 65)
    }
}
