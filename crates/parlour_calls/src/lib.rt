// A camera's picture painted into a region of a cube: pixel setting, conversion of each component and edit of the region in one call, on the
// definitions of `parlour` (change requests K3, K5).
#![tactic(auto)]

mod components;
mod rules;
mod strips;

ghost use Rattle.std.specs.Prelude.{◌≡◌, length};
ghost use Rattle.parlour.specs.Calls.{paint_held, paint_buffer};

use parlour::{Conversion, PaintOutcome};
use pixels::PixelSetting;
use refusal::Quantity;
use regions::RegionTable;

// The checks, and the painting where they pass: how many components were held at a limit.
fn painted(
    table: RegionTable,
    slot: u32,
    id: u32,
    image: PixelSetting,
    pixels: &[u8],
    conversion: Conversion,
    buffer: &mut [u8],
) -> Quantity
    ensures counted { result ≡ paint_held table slot id image pixels.now conversion (length buffer.old) }
    ensures left { buffer.new ≡ paint_buffer table slot id image pixels.now conversion buffer.old }
{
    rules::check_picture(table.layout, image, conversion.shift, pixels.len())?;
    let target = rules::find_target(table, slot, id, image, buffer.len())?;
    Ok(strips::paint_rows(table.layout, target, image, pixels, conversion, buffer))
}

// Paints the region in a slot: component n of pixel (x, y), converted to the cube's precision, becomes the element of channel n, row y and column x of
// the region; no other byte changes. Tells how many components were held at a limit.
pub fn paint(
    table: RegionTable,
    slot: u32,
    id: u32,
    image: PixelSetting,
    pixels: &[u8],
    conversion: Conversion,
    buffer: &mut [u8],
) -> PaintOutcome
    ensures counted { result.held ≡ paint_held table slot id image pixels.now conversion (length buffer.old) }
    ensures kept { result.table ≡ table }
    ensures left { buffer.new ≡ paint_buffer table slot id image pixels.now conversion buffer.old }
{
    PaintOutcome {
        held: painted(table, slot, id, image, pixels, conversion, buffer),
        table,
    }
}
