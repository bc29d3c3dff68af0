// Painting a box of the cube: row by row, each in strips of at most 256 pixels, which are converted into a tile and written by the loop that writes
// boxes; each part tells how many components were held at a limit.
ghost use Rattle.std.specs.Prelude.{◌≡◌, ◌+◌, ◌≤◌, ◌<◌, length};
ghost use Rattle.refusal.specs.Checks.{in_order, Accepted};
ghost use Rattle.pixels.specs.Settings.{setting_answer, pixel_position};
ghost use Rattle.quantize.specs.Quantize.{quantize_checks};
ghost use Rattle.parlour.specs.Components.{component_bytes};
ghost use Rattle.parlour.specs.Counts.{row_held, held_count};
ghost use Rattle.parlour_calls.specs.Steps.{Levels, Paintable, row_of, strip_of, part_painted, pixels_held};

use crate::components;
use layout::{CubeLayout, ElementBox};
use parlour::Conversion;
use pixels::PixelSetting;
use quantize::Converted;

// A picture and the box of a cube that it is painted into, with what its components are converted by: how many bytes one has, and what each byte is
// converted to.
#[derive(Drop)]
pub(crate) struct Painter {
    pub(crate) layout: CubeLayout,
    target: ElementBox,
    pub(crate) image: PixelSetting,
    pub(crate) size: u32,
    pub(crate) conversion: Conversion,
    pub(crate) levels: [Converted; 256],
    pub(crate) ghost sized: { (size ≡ component_bytes image.format) × (1 ≤ size) × (size ≤ 2) × (1 ≤ image.channels) × (image.channels ≤ 4) },
    pub(crate) ghost converts: { in_order (quantize_checks layout.precision conversion.shift) ≡ Accepted },
    pub(crate) ghost told: { Levels conversion layout.precision levels },
}

// The byte at which a pixel of an accepted picture begins.
fn pixel_at(image: PixelSetting, x: u32, y: u32) -> u64
    requires { (setting_answer image ≡ Accepted) × (x < image.width) × (y < image.height) }
    ensures { result ≡ pixel_position image x y }
{
    pixels_calls::position(image, x, y).unwrap()
}

impl Painter {
    // `count` pixels from pixel (x, y) on. Returned: how many components were held.
    fn paint_strip(&self, x: u32, y: u32, count: u32, pixels: &[u8], buffer: &mut [u8]) -> u64
        requires paintable { Paintable self.now.layout self.now.target self.now.image self.now.conversion.shift (length pixels.now) (length buffer.old) }
        requires y_lt_height { (y < self.now.image.height) × (1 ≤ count) × (count ≤ 256) × (x + count ≤ self.now.image.width) }
        ensures painted { buffer.new ≡ part_painted self.now.layout self.now.target (strip_of self.now.target x y count) self.now.image pixels.now self.now.conversion buffer.old }
        ensures counted { result ≡ pixels_held self.now.image pixels.now self.now.conversion self.now.layout.precision x y count }
    {
        let at = pixel_at(self.image, x, y) as usize;
        let mut tile = [0i16; 1024];
        let held = self.convert_strip(pixels, at, count as usize, &mut tile);
        let strip = ElementBox {
            row: self.target.row + y,
            column: self.target.column + x,
            rows: 1,
            columns: count,
            ..self.target
        };
        let n = (self.image.channels * count) as usize;
        cube::write_box(self.layout, strip, &tile[..n], buffer).unwrap();
        held
    }

    // One row of the picture. Returned: how many components were held.
    fn paint_row(&self, y: u32, pixels: &[u8], buffer: &mut [u8]) -> u64
        requires paintable { Paintable self.now.layout self.now.target self.now.image self.now.conversion.shift (length pixels.now) (length buffer.old) }
        requires y_lt_height { y < self.now.image.height }
        ensures painted { buffer.new ≡ part_painted self.now.layout self.now.target (row_of self.now.target y) self.now.image pixels.now self.now.conversion buffer.old }
        ensures counted { result ≡ row_held self.now.image pixels.now self.now.conversion self.now.layout.precision y }
    {
        let width = self.image.width;
        let mut held: u64 = 0;
        for x in (0..width).step_by(256) {
            let count = (width - x).min(256);
            held += self.paint_strip(x, y, count, pixels, buffer);
        }
        held
    }
}

// Every row of the picture. Returned: how many components were held.
pub(crate) fn paint_rows(
    layout: CubeLayout,
    target: ElementBox,
    image: PixelSetting,
    pixels: &[u8],
    conversion: Conversion,
    buffer: &mut [u8],
) -> u64
    requires { Paintable layout target image conversion.shift (length pixels.now) (length buffer.old) }
    ensures painted { buffer.new ≡ part_painted layout target target image pixels.now conversion buffer.old }
    ensures counted { result ≡ held_count image pixels.now conversion layout.precision }
{
    let format = pixels_calls::format(image.format);
    let painter = Painter {
        layout,
        target,
        image,
        size: format.bytes / format.channels,
        conversion,
        levels: components::levels(conversion, layout.precision),
    };
    let mut held: u64 = 0;
    for y in 0..image.height {
        held += painter.paint_row(y, pixels, buffer);
    }
    held
}
