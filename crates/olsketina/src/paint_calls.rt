// A camera's picture painted into a region.
ghost use Rattle.std.specs.Prelude.{◌≡◌, length};
ghost use Rattle.parlour.specs.Calls.{paint_held, paint_buffer};
ghost use Rattle.olsketina.specs.Answers.{Valued};
ghost use Rattle.olsketina.specs.Words.{image_from, conversion_of};
ghost use Rattle.olsketina.specs.Tables.{table_at};

use crate::words::{IMAGE_WORDS, TABLE_WORDS};
use crate::{answers, tables, words};
use parlour::Conversion;

// parlour_calls::paint
#[unsafe(no_mangle)]
pub extern "C" fn olsketina_parlour_paint(
    table: &[u32; TABLE_WORDS],
    slot: u32,
    id: u32,
    image: &[u32; IMAGE_WORDS],
    pixels: &[u8],
    offset: i16,
    scale: i16,
    shift: u32,
    buffer: &mut [u8],
    held: &mut u64,
    fault: &mut usize,
) -> u32
    ensures counted { Valued (paint_held (table_at table.now 0) slot id (image_from image.now) pixels.now (conversion_of offset scale shift) (length buffer.old)) held.old result held.new fault.new }
    ensures left { buffer.new ≡ paint_buffer (table_at table.now 0) slot id (image_from image.now) pixels.now (conversion_of offset scale shift) buffer.old }
{
    let t = tables::table_at(table, 0);
    let conversion = Conversion {
        offset,
        scale,
        shift,
    };
    let picture = words::image_of(image);
    let o = parlour_calls::paint(t, slot, id, picture, pixels, conversion, buffer);
    answers::give_value(o.held, held, fault)
}
