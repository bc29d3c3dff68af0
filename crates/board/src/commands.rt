// The commands: their names, the words that each takes, what each needs and what it sets (docs/TESTING.md says what they do).
use crate::parts::Parts;
use crate::words::Kind;
use Kind::{Byte, Element, Natural, Signed, Wide};
use ListName::{Buffer, Elements, Samples};
use Words::{Each, Members};

// One of the lists that lines lend.
#[derive(Clone, Copy)]
pub enum ListName {
    Elements,
    Buffer,
    Samples,
}

impl ListName {
    // The kind of its members.
    pub fn kind(self) -> Kind {
        match self {
            ListName::Elements => Kind::Element,
            ListName::Buffer => Kind::Byte,
            ListName::Samples => Kind::Signed,
        }
    }

    fn parts(self) -> Parts {
        match self {
            ListName::Elements => Parts::ELEMENTS,
            ListName::Buffer => Parts::BUFFER,
            ListName::Samples => Parts::SAMPLES,
        }
    }
}

// What a command does.
#[derive(Clone, Copy)]
pub enum Command {
    Lend(ListName),
    Fill(ListName),
    Draw(ListName),
    More(ListName),
    DrawCurves,
    SetElement,
    PrintAll,
    PrintSums,
    Show(ListName),
    Sum(ListName),
    Pack,
    Write,
    PackWeights,
    Edit,
    Unpack,
    Read,
    UnpackWeights,
    Look,
    Desk,
    Place,
    HandSlot,
    HandLayout,
    PixelSetting,
    Position,
    Extent,
    PixelPosition,
    Convert,
    CurveX,
    CurveY,
    XLinear,
    XExponential,
    Y,
    Bits,
    Counters,
    Ready,
    Lookup,
    Sheet,
    Whose,
    Release,
    StallPosition,
    StallCount,
    Paint,
    ComputedX,
    ComputedY,
    Walk,
    Step,
    MendPart,
    MendFile,
}

// The words behind a command's name: one of each of these kinds, or any number of members of a list.
#[derive(Clone, Copy)]
pub enum Words {
    Each(&'static [Kind]),
    Members(ListName),
}

// A command's name, the words behind it, and the command.
#[derive(Clone, Copy)]
pub struct Row(&'static [u8], Words, Command);

// `select start end below_scale below_shift above_scale above_shift`, for X's exponential table `offset` in place of `select`.
const TABLE_WORDS: [Kind; 7] = [Signed, Signed, Signed, Element, Signed, Element, Signed];

static ROWS: [Row; 59] = [
    Row(b"elements", Members(Elements), Command::Lend(Elements)),
    Row(b"buffer", Members(Buffer), Command::Lend(Buffer)),
    Row(b"samples", Members(Samples), Command::Lend(Samples)),
    Row(b"cells", Each(&[Natural, Element]), Command::Fill(Elements)),
    Row(b"fill", Each(&[Natural, Byte]), Command::Fill(Buffer)),
    Row(
        b"draw elements",
        Each(&[Natural, Natural, Element, Natural, Signed]),
        Command::Draw(Elements),
    ),
    Row(b"draw buffer", Each(&[Natural; 2]), Command::Draw(Buffer)),
    Row(
        b"draw samples",
        Each(&[Natural, Natural, Signed, Natural]),
        Command::Draw(Samples),
    ),
    Row(
        b"more elements",
        Each(&[Natural, Natural, Element, Natural, Signed]),
        Command::More(Elements),
    ),
    Row(b"more buffer", Each(&[Natural; 2]), Command::More(Buffer)),
    Row(
        b"more samples",
        Each(&[Natural, Natural, Signed, Natural]),
        Command::More(Samples),
    ),
    Row(b"draw curves", Each(&[Natural]), Command::DrawCurves),
    Row(
        b"set element",
        Each(&[Natural, Element]),
        Command::SetElement,
    ),
    Row(b"print all", Each(&[]), Command::PrintAll),
    Row(b"print sums", Each(&[]), Command::PrintSums),
    Row(b"show elements", Each(&[]), Command::Show(Elements)),
    Row(b"show buffer", Each(&[]), Command::Show(Buffer)),
    Row(b"show samples", Each(&[]), Command::Show(Samples)),
    Row(b"sum elements", Each(&[]), Command::Sum(Elements)),
    Row(b"sum buffer", Each(&[]), Command::Sum(Buffer)),
    Row(b"sum samples", Each(&[]), Command::Sum(Samples)),
    Row(b"pack", Each(&[Natural; 7]), Command::Pack),
    Row(b"write", Each(&[Natural; 13]), Command::Write),
    Row(b"pack_weights", Each(&[Natural; 5]), Command::PackWeights),
    Row(b"edit", Each(&[Natural; 8]), Command::Edit),
    Row(b"unpack", Each(&[Natural; 7]), Command::Unpack),
    Row(b"read", Each(&[Natural; 13]), Command::Read),
    Row(
        b"unpack_weights",
        Each(&[Natural; 5]),
        Command::UnpackWeights,
    ),
    Row(b"look", Each(&[Natural; 8]), Command::Look),
    Row(b"desk", Each(&[Natural; 7]), Command::Desk),
    Row(b"place", Each(&[Natural; 6]), Command::Place),
    Row(b"hand slot", Each(&[Natural; 7]), Command::HandSlot),
    Row(b"hand layout", Each(&[Natural; 7]), Command::HandLayout),
    Row(b"pixel setting", Each(&[Natural; 8]), Command::PixelSetting),
    Row(b"position", Each(&[Natural; 10]), Command::Position),
    Row(b"extent", Each(&[Natural; 7]), Command::Extent),
    Row(
        b"pixel position",
        Each(&[Natural; 10]),
        Command::PixelPosition,
    ),
    Row(
        b"convert",
        Each(&[Signed, Element, Element, Natural, Natural]),
        Command::Convert,
    ),
    Row(b"curve x", Each(&[Natural]), Command::CurveX),
    Row(b"curve y", Each(&[Natural]), Command::CurveY),
    Row(b"x linear", Each(&TABLE_WORDS), Command::XLinear),
    Row(b"x exponential", Each(&TABLE_WORDS), Command::XExponential),
    Row(b"y", Each(&TABLE_WORDS), Command::Y),
    Row(b"bits", Each(&[Natural; 3]), Command::Bits),
    Row(b"counters", Each(&[Natural; 5]), Command::Counters),
    Row(
        b"ready",
        Each(&[Signed, Natural, Natural, Natural]),
        Command::Ready,
    ),
    Row(b"lookup", Each(&[Natural; 3]), Command::Lookup),
    Row(b"sheet", Each(&[]), Command::Sheet),
    Row(
        b"whose",
        Each(&[
            Natural,
            Natural,
            Natural,
            Natural,
            Natural,
            Natural,
            Natural,
            Kind::Position,
        ]),
        Command::Whose,
    ),
    Row(b"release", Each(&[Natural; 2]), Command::Release),
    Row(
        b"stall position",
        Each(&[Natural; 5]),
        Command::StallPosition,
    ),
    Row(b"stall count", Each(&[Natural; 2]), Command::StallCount),
    Row(
        b"paint",
        Each(&[
            Natural, Natural, Natural, Natural, Natural, Natural, Natural, Natural, Natural,
            Natural, Element, Element, Natural,
        ]),
        Command::Paint,
    ),
    Row(b"computed x", Each(&[Natural]), Command::ComputedX),
    Row(b"computed y", Each(&[Natural]), Command::ComputedY),
    Row(b"walk", Each(&[Natural; 7]), Command::Walk),
    Row(b"step", Each(&[Wide; 12]), Command::Step),
    Row(
        b"mend part",
        Each(&[
            Natural, Natural, Natural, Natural, Natural, Natural, Natural, Wide, Wide, Natural,
            Natural, Natural,
        ]),
        Command::MendPart,
    ),
    Row(b"mend file", Each(&[Natural; 8]), Command::MendFile),
];

impl Row {
    pub fn words(&self) -> Words {
        self.1
    }

    pub fn command(&self) -> Command {
        self.2
    }

    // The row of a name, if there is one.
    pub fn find(name: &[u8]) -> Option<&'static Row> {
        ROWS.iter().find(|row| row.0 == name)
    }
}

impl Command {
    // What it sets.
    pub fn sets(self) -> Parts {
        match self {
            Command::Lend(list) | Command::Fill(list) | Command::Draw(list) | Command::More(list) =>
                list.parts(),
            Command::DrawCurves
            | Command::SetElement
            | Command::Unpack
            | Command::Read
            | Command::UnpackWeights
            | Command::Look => Parts::ELEMENTS,
            Command::Pack
            | Command::Write
            | Command::PackWeights
            | Command::Edit
            | Command::Paint
            | Command::Walk
            | Command::MendPart
            | Command::MendFile => Parts::BUFFER,
            Command::Desk | Command::Place | Command::HandSlot | Command::HandLayout =>
                Parts::TABLE,
            Command::Release => Parts::BUFFER.with(Parts::TABLE),
            Command::XLinear | Command::XExponential => Parts::X,
            Command::Y => Parts::Y,
            Command::Bits => Parts::PRIORITIES,
            Command::Ready => Parts::SETTINGS,
            Command::Counters | Command::Lookup => Parts::COUNTERS,
            _ => Parts::NONE,
        }
    }

    // What it looks at.
    pub fn uses(self) -> Parts {
        match self {
            Command::More(list) | Command::Show(list) | Command::Sum(list) => list.parts(),
            Command::SetElement | Command::Step => Parts::ELEMENTS,
            Command::Sheet | Command::MendPart | Command::MendFile => Parts::BUFFER,
            Command::Pack
            | Command::Write
            | Command::PackWeights
            | Command::Unpack
            | Command::Read
            | Command::UnpackWeights
            | Command::Walk => Parts::PACKED,
            Command::Edit | Command::Look | Command::Release | Command::Paint => Parts::PACKED.with(
                Parts::TABLE,
            ),
            Command::Place
            | Command::HandSlot
            | Command::HandLayout
            | Command::StallPosition
            | Command::StallCount => Parts::TABLE,
            Command::Ready => Parts::SETTINGS,
            Command::Lookup => Parts::ELEMENTS
                .with(Parts::SAMPLES)
                .with(Parts::SETTINGS)
                .with(Parts::COUNTERS),
            _ => Parts::NONE,
        }
    }
}
