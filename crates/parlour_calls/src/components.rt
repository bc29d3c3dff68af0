// Components read from the pixel buffer and converted: a run of one component of pixels side by side, and the runs of a strip of pixels; each tells how
// many were held at a limit.
ghost use Rattle.std.specs.Prelude.{◌≡◌, ◌+◌, ◌*◌, ◌≤◌, length};
ghost use Rattle.refusal.specs.Checks.{in_order, Accepted};
ghost use Rattle.columns.specs.Columns.{columns, bytes_set};
ghost use Rattle.quantize.specs.Quantize.{quantize_checks, conversion};
ghost use Rattle.parlour.specs.Components.{component_bytes, component_at};
ghost use Rattle.parlour_calls.specs.Steps.{Levels, run_element, strip_element, run_held, strip_held};

use crate::strips::Painter;
use parlour::Conversion;
use quantize::Converted;

// The component of two bytes, of a format, that begins at p.
fn component(code: u32, pixels: &[u8], p: usize) -> i32
    requires { (component_bytes code ≡ 2) × (p + 2 ≤ length pixels.now) }
    ensures { result ≡ component_at code pixels.now p }
{
    if code == 4 {
        return i32::from(elements::from_bytes(pixels[p], pixels[p + 1]));
    }
    let word = u16::from_le_bytes([pixels[p], pixels[p + 1]]);
    if code == 1 {
        return i32::from(word % 1024);
    }
    if code == 2 {
        return i32::from(word % 4096);
    }
    i32::from(word)
}

// A component converted.
fn convert(d: i32, k: Conversion, precision: u32) -> Converted
    requires { in_order (quantize_checks precision k.shift) ≡ Accepted }
    ensures { result ≡ conversion d k.offset k.scale k.shift precision }
{
    quantize::convert(d, k.offset, k.scale, k.shift, precision).unwrap()
}

// What each byte is converted to, and whether it is held.
pub(crate) fn levels(k: Conversion, precision: u32) -> [Converted; 256]
    requires { in_order (quantize_checks precision k.shift) ≡ Accepted }
    ensures { Levels k precision result }
{
    let none = Converted {
        value: 0,
        held: false,
    };
    let mut levels = [none; 256];
    for n in 0..256 {
        levels[n] = convert(n as i32, k, precision);
    }
    levels
}

impl Painter {
    // The component of `size` bytes that begins at p, converted; one of a byte is looked up. The size by value: a run reads it once, and not for each
    // component.
    fn converted_at(&self, size: u32, pixels: &[u8], p: usize) -> Converted
        requires { (size ≡ self.now.size) × (p + self.now.size ≤ length pixels.now) }
        ensures { result ≡ conversion (component_at self.now.image.format pixels.now p) self.now.conversion.offset self.now.conversion.scale self.now.conversion.shift self.now.layout.precision }
    {
        if size == 1 {
            return self.levels[pixels[p] as usize];
        }
        let d = component(self.image.format, pixels, p);
        convert(d, self.conversion, self.layout.precision)
    }

    // One component of `count` pixels side by side, the first's from byte `at` on, converted, from element `from` on. Returned: how many were held.
    // The whole tile and the run's first element, and no slice of it: the definitions of a tile (`bytes_set`, `columns`) speak of one list.
    fn convert_run(
        &self,
        pixels: &[u8],
        at: usize,
        count: usize,
        tile: &mut [i16; 1024],
        from: usize,
    ) -> u64
        requires { (at + self.now.image.channels * self.now.size * count + self.now.size ≤ length pixels.now + self.now.image.channels * self.now.size) × (from + count ≤ 1024) }
        ensures converted { tile.new ≡ bytes_set (run_element self.now.image.format self.now.conversion self.now.layout.precision pixels.now at (self.now.image.channels * self.now.size)) count from tile.old }
        ensures counted { result ≡ run_held self.now.image.format self.now.conversion self.now.layout.precision pixels.now at (self.now.image.channels * self.now.size) count }
    {
        let size = self.size;
        let step = self.image.channels as usize * size as usize;
        let mut held: u64 = 0;
        let mut p = at;
        for i in 0..count {
            let c = self.converted_at(size, pixels, p);
            tile[from + i] = c.value;
            held += c.held as u64;
            p += step;
        }
        held
    }

    // Every component of `count` pixels, converted: those of component n from element n·count on. Returned: how many were held.
    pub(crate) fn convert_strip(
        &self,
        pixels: &[u8],
        at: usize,
        count: usize,
        tile: &mut [i16; 1024],
    ) -> u64
        requires { (1 ≤ count) × (at + self.now.image.channels * self.now.size * count ≤ length pixels.now) × (self.now.image.channels * count ≤ 1024) }
        ensures converted { tile.new ≡ columns (strip_element self.now.image.format self.now.size self.now.image.channels self.now.conversion self.now.layout.precision pixels.now at) count self.now.image.channels 0 count tile.old }
        ensures counted { result ≡ strip_held self.now.image.format self.now.size self.now.image.channels self.now.conversion self.now.layout.precision pixels.now at count }
    {
        let size = self.size as usize;
        let mut held: u64 = 0;
        for n in 0..self.image.channels as usize {
            held += self.convert_run(pixels, at + n * size, count, tile, count * n);
        }
        held
    }
}
