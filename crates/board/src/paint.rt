// Painting: the pixel buffer has the low byte of each element that is lent.
use crate::numbers::Numbers;
use parlour::PaintOutcome;
use regions::RegionTable;

// Puts the low bytes of the elements in the pixel buffer, and paints with as many of it: slot and id, a pixel setting, a conversion.
fn paint(
    mut n: Numbers,
    table: RegionTable,
    elements: &[i16],
    pixels: &mut [u8],
    buffer: &mut [u8],
) -> PaintOutcome {
    for (pixel, &element) in pixels.iter_mut().zip(elements) {
        *pixel = (element.cast_unsigned() & 0xff) as u8;
    }
    let count = elements.len().min(pixels.len());
    parlour_calls::paint(
        table,
        n.natural(),
        n.natural(),
        n.pixel_setting(),
        &pixels[..count],
        n.conversion(),
        buffer,
    )
}

// `paint slot id P.. offset SF shift`.
pub fn run(n: Numbers, table: RegionTable, elements: &[i16], buffer: &mut [u8]) -> PaintOutcome {
    let mut pixels = [0; 307200];
    paint(n, table, elements, &mut pixels, buffer)
}
