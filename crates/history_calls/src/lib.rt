// The beginning of a list of calls, and one call of it: the calls of `cube`, `regions` and `parlour` themselves, whose promises are here the fold's steps
// (history/specs/Program.antt). So the theorem about lists (history/proofs/Claims.antt) is about these calls (scope paper, "The plain picture"; change
// requests K1, K3, K5).
#![tactic(auto)]

ghost use Rattle.std.specs.Prelude.{◌≡◌, []};
ghost use Rattle.history.specs.Program.{state_of, step_of, step_with, held_reply, beginning, step, Call};

use layout::{CubeLayout, ElementBox};
use parlour::{Conversion, PaintOutcome};
use pixels::PixelSetting;
use regions::{Outcome, Rectangle, RegionTable};

// Packs a raw tensor and takes the empty table of its layout.
pub fn begin(layout: CubeLayout, elements: &[i16], buffer: &mut [u8]) -> Outcome
    ensures { step_of result.answer elements.now result.table buffer.new ≡ beginning layout elements.now buffer.old }
{
    let answer = cube::pack(layout, elements, buffer);
    let table = regions_calls::empty(layout);
    Outcome { answer, table }
}

// Places a region.
pub fn place(
    table: RegionTable,
    slot: u32,
    id: u32,
    rectangle: Rectangle,
    buffer: &mut [u8],
) -> Outcome
    ensures { step_of result.answer [] result.table buffer.new ≡ step (state_of table buffer.old) (Call.place slot id rectangle) }
{
    regions_calls::place(table, slot, id, rectangle)
}

// Writes a box of a region.
pub fn edit(
    table: RegionTable,
    slot: u32,
    id: u32,
    b: ElementBox,
    elements: &[i16],
    buffer: &mut [u8],
) -> Outcome
    ensures { step_of result.answer elements.now result.table buffer.new ≡ step (state_of table buffer.old) (Call.edit slot id b elements.now) }
{
    regions_calls::edit(table, slot, id, b, elements, buffer)
}

// Reads a box of a region.
pub fn read(
    table: RegionTable,
    slot: u32,
    id: u32,
    b: ElementBox,
    elements: &mut [i16],
    buffer: &mut [u8],
) -> Outcome
    ensures { step_of result.answer elements.new result.table buffer.new ≡ step (state_of table buffer.old) (Call.read slot id b elements.old) }
{
    regions_calls::read(table, slot, id, b, buffer, elements)
}

// Releases a region.
pub fn release(table: RegionTable, slot: u32, id: u32, buffer: &mut [u8]) -> Outcome
    ensures { step_of result.answer [] result.table buffer.new ≡ step (state_of table buffer.old) (Call.release slot id) }
{
    regions_calls::release(table, slot, id, buffer)
}

// Paints a region from a camera's picture; tells how many components were held.
pub fn paint(
    table: RegionTable,
    slot: u32,
    id: u32,
    image: PixelSetting,
    pixels: &[u8],
    conversion: Conversion,
    buffer: &mut [u8],
) -> PaintOutcome
    ensures { step_with (held_reply result.held) [] result.table buffer.new ≡ step (state_of table buffer.old) (Call.paint slot id image pixels.now conversion) }
{
    parlour_calls::paint(table, slot, id, image, pixels, conversion, buffer)
}
